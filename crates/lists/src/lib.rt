// Lists of names and of any elements, and tables in order of a key: definitions (specs) and laws (proofs). It has no code.
#![tactic(auto)]
