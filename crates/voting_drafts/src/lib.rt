// What a proposal adds to a record: orders of noncommuting pairs, then decisions.
#![tactic(auto)]

pub mod draft;
pub mod pairs;
pub mod ranking;
