// What the reader makes of a package that the writer wrote: theorems for a reviewer, in specs/ alone.
#![tactic(auto)]
