// Whether two versions hold the same entries.
ghost use Rattle.answers.specs.Answers.{truth_of};
ghost use Rattle.model.specs.Lists.{Same};

use answers::Refusal;
use block::{root, size_at};
use table::checks::admit;
use walk::{Wanted, walk};

// The walk of `to` against `from` is left at its first put. With none, every entry of `to` stands in `from`, so that the sizes tell the rest.
// Only the number of puts is looked at: the walk has no room for their words.
pub fn same(b: &[u32], from: u32, to: u32) -> Result<bool, Refusal>
    ensures { Same b.now from to (truth_of result) }
{
    admit(b, &[from, to])?;
    let x = root(b, from);
    let y = root(b, to);
    let puts = walk(b, y, x, Wanted::Puts, 0, &mut [], true)?;
    let no_puts = puts == 0;
    Ok(no_puts && size_at(b, x) == size_at(b, y))
}
