// A version loaded from a sorted listing: lines of 16 digits and a newline, key then value, ascending.
#![tactic(auto)]

ghost use Rattle.std.specs.Prelude.{◌≡◌, [], ℕ, ◌≤◌, ◌<◌, length};
ghost use Rattle.model.specs.Text.{entry_of, entries_of};
ghost use Rattle.model.specs.Moves.{Holding};
ghost use Rattle.model.specs.Restore.{built, Restore};
ghost use Rattle.block.specs.Outcome.{Outcome};
ghost use Rattle.block.specs.Low.{Low};
ghost use Rattle.restore.specs.Answers.{said, or_zeros, pair, Judged};
ghost use Rattle.restore.specs.Faults.{number, line, refused, code, line_told};

use answers::Refusal;
use block::ends::settle;
use block::{make, makes_from};
use frame::word::read_eight;
use table::checks::admit;

#[derive(Clone, Copy)]
pub struct Entry {
    pub key: u32,
    pub value: u32,
}

/// Why a text is not restored: what is wrong with the first faulty line, whose number it has, or the refusal of the call.
#[derive(Clone, Copy, Debug, PartialEq, Eq)]
pub enum Fault {
    Line(u64),
    Zero(u64),
    Order(u64),
    Refused(Refusal),
}

impl From<Refusal> for Fault {
    ghost from_gives = { λ r f. f ≡ refused r };

    fn from(refusal: Refusal) -> Fault {
        Fault::Refused(refusal)
    }
}

impl Fault {
    pub fn number(self) -> u32
        ensures { result ≡ number self }
    {
        match self {
            Fault::Line(_) => 17,
            Fault::Zero(_) => 13,
            Fault::Order(_) => 18,
            Fault::Refused(refusal) => refusal.number(),
        }
    }

    // The number of the faulty line, 0 beside every other answer.
    pub fn line(self) -> u64
        ensures { result ≡ line self }
    {
        match self {
            Fault::Line(line) | Fault::Zero(line) | Fault::Order(line) => line,
            Fault::Refused(_) => 0,
        }
    }
}

// The entry of 17 bytes, if they are 16 digits and a newline.
fn read_line(line: &[u8]) -> Option<Entry>
    requires { length line.now ≡ 17 }
    ensures { said result ≡ entry_of line.now }
{
    if line[16] != b'\n' {
        return None;
    }
    let key = read_eight(line, 0)?;
    let value = read_eight(line, 8)?;
    Some(Entry { key, value })
}

// The same of a line that was looked at before.
fn entry_of(line: &[u8]) -> Entry
    requires { length line.now ≡ 17 }
    ensures { pair result ≡ or_zeros (entry_of line.now) }
{
    read_line(line).unwrap_or(Entry { key: 0, value: 0 })
}

// The first faulty line and what is wrong with it. `least` is the least key that the next line may have: one above the last.
fn first_fault(text: &[u8]) -> Result<(), Fault>
    ensures { Judged text.now (code result) (line_told result) }
{
    let mut least = 0u64;
    for (i, line) in text.chunks_exact(17).enumerate() {
        let Some(e) = read_line(line) else {
            return Err(Fault::Line(i as u64));
        };
        if e.value == 0 {
            return Err(Fault::Zero(i as u64));
        }
        let key = u64::from(e.key);
        if key < least {
            return Err(Fault::Order(i as u64));
        }
        least = key + 1;
    }
    if text.len() % 17 != 0 {
        return Err(Fault::Line((text.len() / 17) as u64));
    }
    Ok(())
}

// The tree of no line or of one. A node without children is made at once, so that `build` is called for few empty sides: they would be half of its calls.
fn leaf(b: &mut [u32], low: &mut u32, text: &[u8]) -> Option<u32>
    requires { (Holding b.old [] × (length text.now < 34)) × Low b.old low.old }
    ensures { ((fuel : ℕ) → length (entries_of text.now) ≤ fuel → Outcome b.old b.new [] result (built fuel (entries_of text.now))) × Low b.new low.new }
{
    if text.len() < 17 {
        return Some(0);
    }
    let e = entry_of(&text[..17]);
    make(b, low, e.key, e.value, 0, 0)
}

// The tree of the lines: the middle line at the root, each side from its own part of the text, the left side first.
fn build(b: &mut [u32], low: &mut u32, text: &[u8]) -> Option<u32>
    requires { (Holding b.old [] × (length text.now ≤ 69632)) × Low b.old low.old }
    ensures { ((fuel : ℕ) → length (entries_of text.now) ≤ fuel → Outcome b.old b.new [] result (built fuel (entries_of text.now))) × Low b.new low.new }
{
    let n = text.len() / 17;
    if n < 2 {
        return leaf(b, low, text);
    }
    let m = n / 2;
    let mid = 17 * m;
    let next = mid + 17;
    let left = build(&mut *b, low, &text[..mid])?;
    let right = build(&mut *b, low, &text[next..])?;
    let e = entry_of(&text[mid..next]);
    make(b, low, e.key, e.value, left, right)
}

// Version v becomes the tree of the lines; its old tree is given up at the end. No block has room for more than 4,096 lines, so a longer text is not built.
pub fn restore(b: &mut [u32], v: u32, text: &[u8]) -> Result<(), Fault>
    ensures { Restore b.old b.new v text.now (code result) (line_told result) }
{
    admit(b, &[v])?;
    first_fault(text)?;
    if 69632 < text.len() {
        return Err(Fault::Refused(Refusal::NoRoom));
    }
    let from = makes_from(b);
    let mut low = from;
    let made = build(&mut *b, &mut low, text);
    settle(b, v, from, made)?;
    Ok(())
}
