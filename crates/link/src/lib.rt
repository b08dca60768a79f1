// The calls of the link: what a line says, and what a standby does with it. A line is judged in crate judge; begin and the missing question are the inbox's own.
#![tactic(auto)]

ghost use Rattle.std.specs.Prelude.{◌<◌};
ghost use Rattle.model.specs.Block.{SoundBlock};
ghost use Rattle.model.specs.Frame as lines;
ghost use Rattle.model.specs.Link.{Receive};
ghost use Rattle.answers.specs.Numbers.{code};
ghost use Rattle.link.specs.Answers.{step, Says, Ready, Editing};

use answers::{Fault, Refusal};
use audit::audit;
use block::ends::settle;
use block::{makes_from, root};
use frame::Frame;
use inbox::sound;
use judge::{Heard, accept, judge, repeated};

// What a line says on its own.
pub fn parse(line: &[u8]) -> Result<Frame, Fault>
    ensures { Says (lines.read line.now) result }
{
    frame::parse(line)
}

// The checks that need no line. The kiosk has its own: one for both would take four tests with their contracts, and is no shorter.
fn ready(b: &[u32], x: &[u32], version: u32) -> Result<(), Refusal>
    ensures { Ready b.now x.now version (code result) }
{
    if !audit::shape(b) || !inbox::shape(x) {
        return Err(Refusal::Shape);
    }
    if !audit(b) || !sound(x) {
        return Err(Refusal::Damaged);
    }
    if 15 < version {
        return Err(Refusal::Version);
    }
    Ok(())
}

// The edit of a frame from its first make to its end: a put inserts, a remove removes, and "nothing" makes nothing.
fn edit(b: &mut [u32], version: u32, f: Frame) -> Result<(), Refusal>
    requires { SoundBlock b.old × (version < 16) }
    ensures { Editing b.old b.new version f (code result) }
{
    let from = makes_from(b);
    let mut low = from;
    let source = root(b, version);
    let made = tree::edit(b, &mut low, source, f.kind, f.key, f.value);
    settle(b, version, from, made)
}

// One line at a standby. That lines heard one after another carry it from A to B is `standby_replicates` (crate model, proofs/link/Standbys),
// which is stated of this contract. The kiosk's has the same steps around another edit, and says why both are written out.
pub fn receive(b: &mut [u32], x: &mut [u32], version: u32, line: &[u8]) -> Result<Heard, Fault>
    ensures { Receive (step b.old x.old b.new x.new result) version line.now }
{
    ready(b, x, version)?;
    let Some(f) = judge(x, line)? else {
        return Ok(repeated(x));
    };
    edit(b, version, f)?;
    Ok(accept(x, f))
}
