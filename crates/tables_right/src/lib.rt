// The tables that are built lead where the list says: theorems for a reviewer, in specs/ alone.
#![tactic(auto)]
