// How many slots of 2 MiB a world's mappings touch, at the most: a theorem, in specs/ alone.
#![tactic(auto)]
