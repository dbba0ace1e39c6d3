// What the monitor guarantees over any run, and the paper's table of cases: theorems for a reviewer, in specs/ alone.
#![tactic(auto)]
