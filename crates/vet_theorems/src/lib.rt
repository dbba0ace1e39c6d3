// What vetting tells, of any numbers and any list: accepted exactly when nothing is amiss, and else the first offence. Theorems for a
// reviewer, in specs/ alone.
#![tactic(auto)]
