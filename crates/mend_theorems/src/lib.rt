// What mending promises of any input: theorems for a reviewer, in specs/ alone.
#![tactic(auto)]
