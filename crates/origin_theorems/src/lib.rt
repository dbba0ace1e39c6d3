// The theorems about origins, over any lines: specs/Statements.antt says them, specs/Theorems.antt has them.
#![tactic(auto)]
