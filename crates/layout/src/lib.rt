// The tables that a list of mappings calls for: what stands in each entry, how many there are and in which order they lie.
// Definitions and laws, in specs/.
#![tactic(auto)]
