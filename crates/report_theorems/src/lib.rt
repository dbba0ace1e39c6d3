// What a report of calls tells, of any input: theorems for a reviewer, in specs/ alone.
#![tactic(auto)]
