// Any input: what is printed for it, and that it comes to the same in one piece, fed in chunks and by any reads: definitions and laws, in
// specs/ alone.
#![tactic(auto)]
