// The state's own table of owners is one that unpacks: a theorem for a reviewer, in specs/ alone.
#![tactic(auto)]
