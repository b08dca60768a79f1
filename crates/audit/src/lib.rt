// Checks of a block that is lent, of any words at all, and the fresh block.
#![tactic(auto)]

ghost use Rattle.model.specs.Block.{Shaped, SoundBlock};
ghost use Rattle.model.specs.Tells.{Tells};
ghost use Rattle.model.specs.Calls.{Fitting, Checked, Fresh};
ghost use Rattle.answers.specs.Numbers.{code};
ghost use Rattle.answers.specs.Answers.{done_of};

use answers::Refusal;
use model::WIDTH;

mod whole;

// Whether n may be N and a block of N = n has this many words.
fn fits(words: usize, n: usize) -> bool
    ensures { Tells result (Fitting words n) }
{
    32 <= n && n <= 4096 && n % 32 == 0 && words == 17 + n / 32 + WIDTH * n
}

// Whether length and N are right; a block of no words has no N.
pub fn shape(b: &[u32]) -> bool
    ensures { Tells result (Shaped b.now) }
{
    !b.is_empty() && fits(b.len(), b[0] as usize)
}

// Whether the block is sound.
pub fn audit(b: &[u32]) -> bool
    ensures { Tells result (SoundBlock b.now) }
{
    if !shape(b) {
        return false;
    }
    let n = b[0] as usize;
    let start = 17 + n / 32;
    whole::whole_ok(b, &b[start..], n)
}

// What refuses a call before it looks at anything but the block. Inbox and kiosk have a check each: one for all would take both tests with their contracts, and is no shorter.
pub fn check(b: &[u32]) -> Result<(), Refusal>
    ensures { Checked b.now (code result) }
{
    if !shape(b) {
        return Err(Refusal::Shape);
    }
    if !audit(b) {
        return Err(Refusal::Damaged);
    }
    Ok(())
}

// A block of N = n with sixteen empty versions.
pub fn fresh(b: &mut [u32], n: u32) -> Result<(), Refusal>
    ensures { Fresh b.old b.new n (done_of result) }
{
    if !fits(b.len(), n as usize) {
        return Err(Refusal::Shape);
    }
    b[0] = n;
    b[1..].fill(0);
    Ok(())
}
