// The runs of missing indexes of an inbox, one after another, and their lines.
ghost use Rattle.std.specs.Prelude.{◌≡◌, ◌≤◌, length, drop};
ghost use Rattle.model.specs.Inbox.{batch_of, count_of, SoundInbox};
ghost use Rattle.model.specs.Request.{run_line};
ghost use Rattle.frame.specs.Fields.{fields_of};
ghost use Rattle.requests.specs.Runs.{Reaches, Finds, run_of, runs_from, alone_of};

use crate::Kind;
use frame::Frame;
use inbox::heard;

// A run's first and last index.
#[derive(Clone, Copy)]
pub struct Run {
    pub first: u32,
    pub last: u32,
}

// The first index from `from` on that is not as `is` says, heard or not; `end` if there is none.
fn reach(x: &[u32], from: u32, end: u32, is: bool) -> u32
    requires { SoundInbox x.now × (from ≤ end) × (end ≤ 4096) }
    ensures { Reaches x.now from end is result }
{
    for i in from..end {
        if heard(x, i) != is {
            return i;
        }
    }
    end
}

// The first run from index i on.
pub fn run_from(x: &[u32], i: u32) -> Option<Run>
    requires { SoundInbox x.now × (i ≤ count_of x.now) }
    ensures { Finds x.now i result }
{
    let count = x[1];
    let first = reach(x, i, count, true);
    if first == count {
        return None;
    }
    let after = reach(x, first, count, false);
    Some(Run {
        first,
        last: after - 1,
    })
}

// How many runs there are. Here, below and in `ask` they are gone over by their ends: an iterator over them would lend the inbox and carry its soundness, and is longer than the three loops.
pub fn run_count(x: &[u32]) -> u32
    requires { SoundInbox x.now }
    ensures { result ≡ length (runs_from x.now 0) }
{
    let mut i = 0;
    let mut n = 0;
    while let Some(run) = run_from(x, i) {
        i = run.last + 1;
        n += 1;
    }
    n
}

// The index behind the first n runs, or behind all of them if there are fewer.
pub fn behind(x: &[u32], n: u32) -> u32
    requires { SoundInbox x.now }
    ensures { (runs_from x.now result ≡ drop n (runs_from x.now 0)) × (result ≤ count_of x.now) }
{
    let mut i = 0;
    for _k in 0..n {
        let Some(run) = run_from(x, i) else {
            return i;
        };
        i = run.last + 1;
    }
    i
}

// An isolated index is asked for by kind 10, two or more neighbours by kind 11.
#[tactic(auto, unfolding(model::specs::Request::run_line))]
pub fn run_line(batch: u32, count: u32, place: u32, run: Run) -> Frame
    ensures { fields_of result ≡ run_line batch count place (run_of run) }
{
    let one = Frame {
        batch,
        index: place,
        count,
        kind: Kind::One as u32,
        key: run.first,
        value: 0,
    };
    if run.first == run.last {
        return one;
    }
    Frame {
        kind: Kind::Run as u32,
        value: run.last,
        ..one
    }
}

// The one line of an inbox without runs: every index while the count is unknown, else complete.
#[tactic(auto, unfolding(crate::specs::Runs::alone_of))]
pub fn alone(x: &[u32]) -> Frame
    requires { SoundInbox x.now }
    ensures { fields_of result ≡ alone_of (batch_of x.now) (count_of x.now) }
{
    if x[1] == 0 {
        return run_line(
            x[0],
            1,
            0,
            Run {
                first: 0,
                last: 4095,
            },
        );
    }
    Frame {
        batch: x[0],
        index: 0,
        count: 1,
        kind: Kind::Complete as u32,
        key: 0,
        value: 0,
    }
}
