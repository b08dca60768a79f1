// The public calls that list: listing, frames, and ask and resend for lost lines, each from a start index into the caller's output; and same, which walks and writes nothing.
#![tactic(auto)]

pub mod ask;
mod changes;
pub mod entries;
pub mod lines;
pub mod resend;
pub mod same;
