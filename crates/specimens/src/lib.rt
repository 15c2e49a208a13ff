// Document 01, "Specimens": P1 to P10 and the three-edit text, shown of the definitions by one combined table.
#![tactic(auto)]
