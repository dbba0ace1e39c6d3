// Tools that stores, lines and packages share, all of them definitions and laws: searches and counts, tables that are read and
// written in bounds, and bytes laid one behind another, in specs/.
#![tactic(auto)]
