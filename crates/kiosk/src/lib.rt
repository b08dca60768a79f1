// The kiosk's flat table: a lent slice of 129 words, the number of entries and then 64 pairs of key and value, keys ascending.
#![tactic(auto)]

mod edits;
mod lines;
mod reads;
mod slice;

pub use answers::{Refusal, Report};
pub use edits::{fresh, insert, remove};
pub use lines::receive;
pub use reads::{list, lookup};
