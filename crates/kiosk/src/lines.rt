// One line at a kiosk, judged as at the table. That lines heard one after another carry it from A to B is `kiosk_replicates`
// (crate model, proofs/link/Standbys), which is stated of this contract.
ghost use Rattle.model.specs.Kiosk.{Receive};
ghost use Rattle.answers.specs.Numbers.{code};
ghost use Rattle.kiosk.specs.Answers.{step, Ready};

use crate::edits::edit;
use crate::slice::{shape, sound};
use answers::{Fault, Refusal};
use judge::{Heard, accept, judge, repeated};

// The checks that need no line. The table has its own in `link`, with the version among them.
fn ready(k: &[u32], x: &[u32]) -> Result<(), Refusal>
    ensures { Ready k.now x.now (code result) }
{
    if !shape(k) || !inbox::shape(x) {
        return Err(Refusal::Shape);
    }
    if !sound(k) || !inbox::sound(x) {
        return Err(Refusal::Damaged);
    }
    Ok(())
}

// The steps are those of `link`'s receive around another edit: one function for both would take the edit as a closure over the block or the kiosk, with its contract.
pub fn receive(k: &mut [u32], x: &mut [u32], line: &[u8]) -> Result<Heard, Fault>
    ensures { Receive (step k.old x.old k.new x.new result) line.now }
{
    ready(k, x)?;
    let Some(f) = judge(x, line)? else {
        return Ok(repeated(x));
    };
    edit(k, f.kind, f.key, f.value)?;
    Ok(accept(x, f))
}
