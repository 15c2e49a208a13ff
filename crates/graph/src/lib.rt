// The constraint graph of a record: its rows linked by key, and its edits by index.
#![tactic(auto)]

pub mod indexes;
pub mod links;
mod reversed_row;
