// What is told of how things stand, after any lines: theorems for a reviewer, in specs/ alone.
#![tactic(auto)]
