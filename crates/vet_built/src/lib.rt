// What a build makes of a world's mappings is accepted against them: a theorem for a reviewer, in specs/ alone.
#![tactic(auto)]
