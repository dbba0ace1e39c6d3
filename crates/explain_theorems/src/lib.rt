// The theorems about a run told in words: specs/Statements.antt says them, specs/Theorems.antt has them.
#![tactic(auto)]
