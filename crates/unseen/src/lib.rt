// What a Realm program's mapping habits show to others: theorems for a reviewer, in specs/ alone.
#![tactic(auto)]
