// The theorems about the words of a line: specs/Columns.antt says where they stand, specs/Texts.antt and specs/Calls.antt what
// they are.
#![tactic(auto)]
