// What the standby's programs begin with: the lines on an input, for them standard input, are heard into version 0 of a fresh block.
#![tactic(auto)]

ghost use Rattle.std.specs.Prelude.{◌≡◌, ℕ, ◌≤◌, false, List, [], ◌∷◌, ◌++◌, length, take};
ghost use Rattle.model.specs.Inbox.{begun};
ghost use Rattle.model.specs.Calls.{fresh_block};
ghost use Rattle.hearing.specs.Lines.{Keeps, Runs, state, Fed, FedSome, HearsSome};

mod kept;

use inbox::begin;
pub use kept::Progress;
use link::parse;
use std::io::Read;

const NEWLINE: u8 = 10;

// A line as long as the buffer stays that long: its further bytes are dropped, and no line of 36 bytes is well formed. How many bytes are kept after the byte.
fn keep(line: &mut [u8; 36], len: usize, byte: u8) -> usize
    requires { len ≤ 36 }
    ensures short { result ≤ 36 }
    ensures kept { (held : List ℕ) → Keeps line.old len held → Keeps line.new result (held ++ byte ∷ []) }
{
    if 36 <= len {
        return len;
    }
    line[len] = byte;
    len + 1
}

impl Progress {
    // The kept bytes are the line, or it is longer than a line may be. The next line begins with none.
    fn end_line(&mut self, b: &mut [u32], x: &mut [u32])
        requires { length x.old ≡ 130 }
        ensures none_kept { self.new.len ≡ 0 }
        ensures same_buffer { self.new.line ≡ self.old.line }
        ensures heard { Runs b.old x.old self.old.begun (take self.old.len self.old.line ∷ []) b.new x.new self.new.begun }
    {
        self.begun = hear(b, x, self.begun, &self.line[..self.len]);
        self.len = 0;
    }
}

// The first well-formed line begins with its batch; before it all lines are passed over.
fn hear(b: &mut [u32], x: &mut [u32], begun: bool, line: &[u8]) -> bool
    requires { length x.old ≡ 130 }
    ensures { Runs b.old x.old begun (line.now ∷ []) b.new x.new result }
{
    if begun {
        let _ = link::receive(b, x, 0, line);
        return true;
    }
    // No line of another length is well formed, and such lines are passed over without a call.
    if line.len() != 35 {
        return false;
    }
    let Ok(first) = parse(line) else {
        return false;
    };
    let _ = begin(x, first.batch);
    let _ = link::receive(b, x, 0, line);
    true
}

// Bytes are cut into lines at each newline; what follows the last one is kept for the next bytes.
fn feed(b: &mut [u32], x: &mut [u32], progress: &mut Progress, bytes: &[u8])
    requires { length x.old ≡ 130 }
    ensures { Fed (state b.old x.old progress.old) bytes.now (state b.new x.new progress.new) }
{
    // The length is a local of the loop, which a register holds; in the struct, beside the bytes that are stored, it would be loaded and stored again at each of them.
    let mut len = progress.len;
    for &byte in bytes {
        len = keep(&mut progress.line, len, byte);
        if byte == NEWLINE {
            progress.len = len;
            progress.end_line(b, x);
            len = 0;
        }
    }
    progress.len = len;
}

// One read, and its bytes fed on: whether there may be more to read. A read that fails ends the input, as its end does: what was heard before it stands.
#[tactic(auto, using(crate::proofs::Feeding::fed_none))]
fn read_once<R: Read>(input: &mut R, b: &mut [u32], x: &mut [u32], progress: &mut Progress) -> bool
    requires { length x.old ≡ 130 }
    ensures { FedSome (state b.old x.old progress.old) (state b.new x.new progress.new) }
{
    let mut buffer = [0u8; 65536];
    match input.read(&mut buffer) {
        Ok(0) | Err(_) => false,
        Ok(n) => {
            feed(b, x, progress, &buffer[..n]);
            true
        }
    }
}

// Nothing says that the input ends, so the reads are counted, up to the largest number there is.
fn read_all<R: Read>(input: &mut R, b: &mut [u32], x: &mut [u32])
    requires { length x.old ≡ 130 }
    ensures { HearsSome b.old x.old b.new x.new }
{
    let mut progress = Progress::new();
    for _ in 0..u64::MAX {
        if !read_once(input, b, x, &mut progress) {
            return;
        }
    }
}

// From a fresh block for 2,016 nodes and an inbox that has heard nothing.
pub fn hear_input<R: Read>(input: &mut R, b: &mut [u32], x: &mut [u32])
    requires { (length b.old ≡ 16208) × (length x.old ≡ 130) }
    ensures { HearsSome (fresh_block 2016) (begun 0) b.new x.new }
{
    let _ = table::fresh(b, 2016);
    let _ = begin(x, 0);
    read_all(input, b, x);
}
