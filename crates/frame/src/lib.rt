// Frame lines: 34 lower-case hexadecimal digits and a newline, written and read.
#![tactic(auto)]

pub mod word;

ghost use Rattle.std.specs.Prelude.{◌≡◌, ◌++◌, ◌+◌, ◌*◌, ◌/◌, ◌<◌, ◌≤◌, length, take, drop};
ghost use Rattle.model.specs.Frame as model;
ghost use Rattle.answers.specs.Answers.{answer};
ghost use Rattle.frame.specs.Fields.{fields_of, parsed, field_read, fields_read};
ghost use Rattle.frame.specs.Alternate.{alternate};

use answers::{Fault, Refusal};
use word::{read_eight, texts};

#[derive(Clone, Copy)]
pub struct Frame {
    pub batch: u32,
    pub index: u32,
    pub count: u32,
    // A number, as `write` and `legal` promise of every kind, known or not.
    pub kind: u32,
    pub key: u32,
    pub value: u32,
}

// Eight digits at once, a byte each: those at even places in the low half, those at odd places in the high half, the lowest first.
fn eight_digits(x: u32) -> u64
    ensures { result ≡ alternate 4 x + 4294967296 * alternate 4 (x / 16) }
{
    texts((x & 0x0f0f0f0f) as u64 + 4294967296 * ((x / 16) & 0x0f0f0f0f) as u64)
}

// Lower case only: a line has one form, so that a frame has one line.
#[tactic(auto, using(crate::proofs::Values::value_before, crate::proofs::Values::value_low, crate::proofs::Values::value_between, crate::proofs::Values::value_high, crate::proofs::Values::value_after))]
fn digit_value(c: u8) -> Option<u32>
    ensures { answer result ≡ model.value c }
{
    match c {
        b'0'..=b'9' => Some((c - b'0') as u32),
        b'a'..=b'f' => Some((c - b'a' + 10) as u32),
        _ => None,
    }
}

// k digits of x from `at` on, the high digit first; written from the low one, from the two halves in turn. Above the eight digits stand 0s.
// Here and below the place goes beside the whole slice, as contracts say what stands before and behind it.
pub fn put_hex(out: &mut [u8], at: usize, k: usize, x: u32)
    requires { at + k ≤ length out.old }
    ensures { out.new ≡ take at out.old ++ (model.digits k x ++ drop (at + k) out.old) }
{
    let both = eight_digits(x);
    let mut low = both % 4294967296;
    let mut high = both / 4294967296;
    for j in (0..k).rev() {
        out[at + j] = (low % 256) as u8;
        (low, high) = (high, low / 256 + 0x30000000);
    }
}

// The number in the k digits from `at` on. All before them are digits, so the first here that is none is the line's.
fn read_hex(line: &[u8], at: usize, k: usize) -> Result<u32, Fault>
    requires { (at + k ≤ length line.now) × (at + k ≤ 34) × (k ≤ 8) × (at ≤ model.first_bad line.now) }
    ensures { result ≡ field_read line.now at k }
{
    let mut n: u32 = 0;
    for i in at..at + k {
        let Some(d) = digit_value(line[i]) else {
            return Err(Fault::Digit(i as u32));
        };
        n = n * 16 + d;
    }
    Ok(n)
}

// The number in eight digits, all at once where they are digits; else the first that is none is looked for.
fn read_long(line: &[u8], at: usize) -> Result<u32, Fault>
    requires { (at + 8 ≤ length line.now) × (at + 8 ≤ 34) × (at ≤ model.first_bad line.now) }
    ensures { result ≡ field_read line.now at 8 }
{
    match read_eight(line, at) {
        Some(n) => Ok(n),
        None => read_hex(line, at, 8),
    }
}

// The line of f, from `at` on.
pub fn write(out: &mut [u8], at: usize, f: Frame)
    requires { at + 35 ≤ length out.old }
    ensures { out.new ≡ take at out.old ++ (model.line (fields_of f) ++ drop (at + 35) out.old) }
{
    put_hex(out, at, 8, f.batch);
    put_hex(out, at + 8, 4, f.index);
    put_hex(out, at + 12, 4, f.count);
    put_hex(out, at + 16, 2, f.kind);
    put_hex(out, at + 18, 8, f.key);
    put_hex(out, at + 26, 8, f.value);
    out[at + 34] = b'\n';
}

// Whether a frame may be sent: an index below its count, and the kind's own rule. A call of its own, as two fields are tested against constant data where it is not.
#[inline(never)]
#[tactic(auto, unfolding(model::specs::Frame::legal, model::specs::Frame::kind_legal))]
pub fn legal(f: Frame) -> bool
    ensures { result ≡ model.legal (fields_of f) }
{
    f.index < f.count
        && f.count <= 4096
        && match f.kind {
            // The index is below the count, so it is 0 as well.
            0 => f.count == 1 && f.key == 0 && f.value == 0,
            1 => true,
            2 => f.value == 0,
            _ => false,
        }
}

// The six fields of a line, where all are numbers. They are read in the line's order, so the first bad digit is met first.
pub fn fields(line: &[u8]) -> Result<Frame, Fault>
    requires { length line.now ≡ 35 }
    ensures { parsed result ≡ fields_read line.now }
{
    let batch = read_long(line, 0)?;
    // Index and count stand side by side, so one reading serves both.
    let both = read_long(line, 8)?;
    let kind = read_hex(line, 16, 2)?;
    let key = read_long(line, 18)?;
    let value = read_long(line, 26)?;
    Ok(Frame {
        batch,
        index: both / 65536,
        count: both % 65536,
        kind,
        key,
        value,
    })
}

// What a line says, or what is wrong with it; any slice may be given.
pub fn parse(line: &[u8]) -> Result<Frame, Fault>
    ensures { parsed result ≡ model.read line.now }
{
    if line.len() != 35 || line[34] != b'\n' {
        return Err(Fault::Refused(Refusal::Frame));
    }
    let f = fields(line)?;
    if 2 < f.kind {
        return Err(Fault::Refused(Refusal::Kind));
    }
    if !legal(f) {
        return Err(Fault::Refused(Refusal::Range));
    }
    Ok(f)
}
