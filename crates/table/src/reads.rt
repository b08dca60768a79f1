// The calls that only read.
ghost use Rattle.model.specs.Calls.{Lookup, Size, Held, HeldBetween};
ghost use Rattle.answers.specs.Answers.{found_of, value_of};

use crate::checks::version_root;
use answers::Refusal;
use block::{size_at, sum_at};
use tree::find;
use tree::held::sum_between;

// The value under a key.
pub fn lookup(b: &[u32], version: u32, key: u32) -> Result<Option<u32>, Refusal>
    ensures { Lookup b.now version key (found_of result) }
{
    let root = version_root(b, version)?;
    Ok(find(b, root, key))
}

// The number of entries.
pub fn size(b: &[u32], version: u32) -> Result<u32, Refusal>
    ensures { Size b.now version (value_of result) }
{
    let root = version_root(b, version)?;
    Ok(size_at(b, root))
}

// The minutes that a version holds.
pub fn held(b: &[u32], version: u32) -> Result<u64, Refusal>
    ensures { Held b.now version (value_of result) }
{
    let root = version_root(b, version)?;
    Ok(sum_at(b, root))
}

// The minutes that it holds from key first to key last, ends included.
pub fn held_between(b: &[u32], version: u32, first: u32, last: u32) -> Result<u64, Refusal>
    ensures { HeldBetween b.now version first last (value_of result) }
{
    let root = version_root(b, version)?;
    Ok(sum_between(b, root, first, last))
}
