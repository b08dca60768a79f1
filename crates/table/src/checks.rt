// The checks that calls begin with.
ghost use Rattle.std.specs.Prelude.{◌<◌, ◌↔◌, IsTrue, All};
ghost use Rattle.model.specs.Calls.{Admitted};
ghost use Rattle.answers.specs.Numbers.{code};
ghost use Rattle.table.specs.Answers.{Opened};

use answers::Refusal;
use audit::check;
use block::root;

// Whether a block has versions of these numbers.
fn known(versions: &[u32]) -> bool
    ensures { IsTrue result ↔ All (λ v. v < 16) versions.now }
{
    versions.iter().all(|v| *v < 16)
}

// The block, then its versions.
pub fn admit(b: &[u32], versions: &[u32]) -> Result<(), Refusal>
    ensures { Admitted b.now versions.now (code result) }
{
    check(b)?;
    if !known(versions) {
        return Err(Refusal::Version);
    }
    Ok(())
}

// The root of a version that is read.
pub fn version_root(b: &[u32], version: u32) -> Result<u32, Refusal>
    ensures { Opened b.now version result }
{
    admit(b, &[version])?;
    Ok(root(b, version))
}
