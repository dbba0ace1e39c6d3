// What a conversion of owners leaves, and that either trip gives back what went in: theorems for a reviewer, in specs/ alone.
#![tactic(auto)]
