// The public calls: checks in document 01's order, then the reading or the rule, then the end of the call.
#![tactic(auto)]

pub mod checks;
pub mod edits;
pub mod reads;

pub use edits::{clear, copy, difference, fresh, insert, remove, union};
pub use reads::{held, held_between, lookup, size};
