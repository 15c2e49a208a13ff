// Elections over time (document 02, A8): what is won on any benches, from older and newer proposals, unites to a sound record. Definitions and
// theorems.
#![tactic(auto)]
