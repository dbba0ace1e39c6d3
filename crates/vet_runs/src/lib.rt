// What is built from the mappings that any run leaves is accepted: a theorem for a reviewer, in specs/ alone.
#![tactic(auto)]
