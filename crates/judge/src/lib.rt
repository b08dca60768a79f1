// A line against an inbox, up to its edit and after it: what the table's receive and the kiosk's share.
#![tactic(auto)]

ghost use Rattle.std.specs.Prelude.{◌≡◌, ◌⊎◌};
ghost use Rattle.answers.specs.Numbers.{code};
ghost use Rattle.model.specs.Inbox.{count_of, SoundInbox, marked};
ghost use Rattle.model.specs.Inbox as model;
ghost use Rattle.model.specs.Tells.{Tells};
ghost use Rattle.model.specs.Frame as lines;
ghost use Rattle.model.specs.Link.{PutsZero};
ghost use Rattle.frame.specs.Fields.{fields_of};
ghost use Rattle.judge.specs.Verdicts.{heard_of, Belongs, Judgement, Fit};

use answers::{Fault, Refusal};
use frame::Frame;
use inbox::{heard, mark, missing};

// What a line did that was not refused: whether it was a repeat, and how many frames are missing.
#[derive(Clone, Copy)]
pub struct Heard {
    pub again: bool,
    pub missing: u32,
}

// Whether the frame's count may be the batch's. A count of 0 is not known yet, so any will do.
fn counted(x: &[u32], count: u32) -> bool
    requires { SoundInbox x.now }
    ensures { Tells result ((count_of x.now ≡ 0) ⊎ (count_of x.now ≡ count)) }
{
    x[1] == 0 || x[1] == count
}

// Whether the frame puts no zero: 0 minutes would later read like a release. The kind is a number, as `Frame` says.
fn worth(f: Frame) -> bool
    ensures { Tells result (¬ PutsZero (fields_of f)) }
{
    f.kind != 1 || 0 < f.value
}

// Whether the frame is of the batch that is heard, and may be taken: a repeat is asked no less.
fn belongs(x: &[u32], f: Frame) -> Result<(), Refusal>
    requires { SoundInbox x.now }
    ensures { Belongs x.now f (code result) }
{
    if f.batch != x[0] {
        return Err(Refusal::Batch);
    }
    if !counted(x, f.count) {
        return Err(Refusal::Count);
    }
    if !worth(f) {
        return Err(Refusal::Zero);
    }
    Ok(())
}

// All that is asked of a line before its edit: its frame where the edit is to be done, or None where the line is a repeat.
pub fn judge(x: &[u32], line: &[u8]) -> Result<Option<Frame>, Fault>
    requires { SoundInbox x.now }
    ensures { Judgement x.now result (lines.read line.now) }
{
    let f = frame::parse(line)?;
    belongs(x, f)?;
    if heard(x, f.index) {
        Ok(None)
    } else {
        Ok(Some(f))
    }
}

// The answer to a repeat.
pub fn repeated(x: &[u32]) -> Heard
    requires { SoundInbox x.now }
    ensures { heard_of (Ok result) ≡ record { number = 0; again = 1; missing = model.missing x.now; place = 0 } }
{
    Heard {
        again: true,
        missing: missing(x),
    }
}

// A new line is marked only once its edit is done: one that found no room may come again.
pub fn accept(x: &mut [u32], f: Frame) -> Heard
    requires { Fit x.old f.count f.index }
    ensures x_after { x.new ≡ marked x.old f.count f.index }
    ensures result_value { heard_of (Ok result) ≡ record { number = 0; again = 0; missing = model.missing (marked x.old f.count f.index); place = 0 } }
{
    mark(x, f.count, f.index);
    Heard {
        again: false,
        missing: missing(x),
    }
}
