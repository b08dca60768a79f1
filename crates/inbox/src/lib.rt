// The inbox: 130 words, batch, count and 128 heard words; bit b of heard word w is index 32w + b.
// They stay a lent slice, as block and kiosk do: a type over it would need a twin over `&mut`, and a check to make either, for the one fact, `SoundInbox`, that the contracts share.
#![tactic(auto)]

ghost use Rattle.std.specs.Prelude.{◌≡◌, false, ◌+◌, ◌^◌, ◌<◌, ◌≤◌, length, replicate};
ghost use Rattle.model.specs.Inbox as model;
ghost use Rattle.model.specs.Inbox.{SoundInbox};
ghost use Rattle.model.specs.Tells.{Tells};
ghost use Rattle.model.specs.Link.{CheckedInbox, Begin, Missing};
ghost use Rattle.answers.specs.Numbers.{code};
ghost use Rattle.inbox.specs.Heard.{Below, WordClear, missing_of};

use answers::Refusal;

// Whether the inbox has 130 words.
pub fn shape(x: &[u32]) -> bool
    ensures { Tells result (length x.now ≡ 130) }
{
    x.len() == 130
}

// How many of the 32 indexes from `at` are below count.
fn below(count: usize, at: usize) -> usize
    requires { at ≤ 4096 }
    ensures { Below count at result }
{
    count.saturating_sub(at).min(32)
}

// Whether heard word w has no bit at or above count: all its bits at once, by a shift in 64 bits, where one by 32 is a shift as any other.
fn word_clear(x: &[u32], count: usize, w: usize) -> bool
    requires { (length x.now ≡ 130) × (w < 128) }
    ensures { Tells result (WordClear x.now count w) }
{
    let k = below(count, 32 * w);
    x[2 + w] as usize >> k == 0
}

// Count at most 4,096, and no bit at or above count.
pub fn sound(x: &[u32]) -> bool
    requires { length x.now ≡ 130 }
    ensures { Tells result (SoundInbox x.now) }
{
    let count = x[1] as usize;
    count <= 4096 && (0..128).all(|w| word_clear(x, count, w))
}

// Shape if the inbox has not 130 words, Damaged if it is not sound; block and kiosk have a check each (`audit::check`).
pub fn check(x: &[u32]) -> Result<(), Refusal>
    ensures { CheckedInbox x.now (code result) }
{
    if !shape(x) {
        return Err(Refusal::Shape);
    }
    if !sound(x) {
        return Err(Refusal::Damaged);
    }
    Ok(())
}

// Whether the bit of index is 1.
pub fn heard(x: &[u32], index: u32) -> bool
    requires { (length x.now ≡ 130) × (index < 4096) }
    ensures { result ≡ model.heard_at x.now index }
{
    let w = (index / 32) as usize;
    (x[2 + w] >> (index % 32)) % 2 == 1
}

// An index not heard before has its bit at 0, so adding the bit sets it.
pub fn mark(x: &mut [u32], count: u32, index: u32)
    requires { (length x.old ≡ 130) × (index < 4096) × (model.heard_at x.old index ≡ false) }
    ensures { x.new ≡ model.marked x.old count index }
{
    let w = 2 + (index / 32) as usize;
    let bits = x[w] + (1 << (index % 32));
    x[1] = count;
    x[w] = bits;
}

// The bits heard, by the ones of the heard words, two words at a time. Words from count on have none.
// The test is never met, as n is at most 64 w below count; but only the bits tell so, and it keeps the counting out of wide registers, whose masks would be constant data.
fn heard_in(x: &[u32]) -> u32
    requires { SoundInbox x.now }
    ensures { result ≡ model.heard_in x.now 128 }
{
    let count = x[1];
    let mut n: u32 = 0;
    for w in 0..(count as usize).div_ceil(64) {
        if n == count {
            return n;
        }
        let low = x[2 + 2 * w] as usize;
        let high = x[3 + 2 * w] as usize;
        n += (low + 4294967296 * high).count_ones();
    }
    n
}

// Count less bits heard; a sound inbox has heard no more than count.
pub fn missing(x: &[u32]) -> u32
    requires { SoundInbox x.now }
    ensures { result ≡ model.missing x.now }
{
    x[1] - heard_in(x)
}

// Begin: any 130 words will do, as all are written.
pub fn begin(x: &mut [u32], batch: u32) -> Result<(), Refusal>
    ensures { Begin x.old x.new batch (code result) }
{
    if !shape(x) {
        return Err(Refusal::Shape);
    }
    x[1..].fill(0);
    x[0] = batch;
    Ok(())
}

// The missing question on its own: 4,294,967,295 while count is 0.
pub fn question(x: &[u32]) -> Result<u32, Refusal>
    ensures { Missing x.now (code result) (missing_of result) }
{
    check(x)?;
    if x[1] == 0 {
        Ok(u32::MAX)
    } else {
        Ok(missing(x))
    }
}
