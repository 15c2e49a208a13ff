// Rows of numbers, and the grounds that a row can meet.
#![tactic(auto)]

pub mod element;
pub mod grounds;
pub mod row;
