// The audit of the node area, which reaches it alone: the block's words from the first node word. Which nodes are occupied and which roots there are is said by whoever calls.
#![tactic(auto)]

pub mod notes;
pub mod trees;
pub mod words;
pub mod zeros;
