// What the calls for lost lines are made of: the runs of an inbox's missing indexes, and the reading of a request.
#![tactic(auto)]

pub mod reading;
pub mod runs;

/// The kinds of a request's lines: one index, a run of neighbours, or nothing more. A frame has its kind as a number, and these are apart from those that carry a change.
#[derive(Clone, Copy)]
pub enum Kind {
    One = 16,
    Run = 17,
    Complete = 18,
}
