// Document 01 as definitions and theorems. Code needs one number of it: how many words a node has.
#![tactic(auto)]

pub const WIDTH: usize = 8;
