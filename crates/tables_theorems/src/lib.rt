// The tables of what a run leaves: theorems for a reviewer, in specs/ alone.
#![tactic(auto)]
