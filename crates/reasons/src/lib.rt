// Why an edit must stand, or can never stand (document 02, A3): laws alone. A reason is true, each edit that must or can never stand has one, and one
// is the least; the law by which lowest steps along least costs give it.
#![tactic(auto)]
