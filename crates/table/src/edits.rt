// The calls that edit. A rule only makes nodes; the end of the call gives up what is not used.
// Each call runs its rule between `makes_from` and `settle` itself: a rule that is handed over would be a closure whose contract names block and bound before and after.
ghost use Rattle.std.specs.Prelude.{◌≡◌, eqb};
ghost use Rattle.model.specs.Calls.{Fresh, Edits, inserting, removing, copying, clearing, uniting, lessening};
ghost use Rattle.answers.specs.Answers.{found_of, done_of};
ghost use Rattle.sets.specs.Numbers.{difference_number};

use crate::checks::admit;
use answers::Refusal;
use block::ends::settle;
use block::{makes_from, root};
use sets::{DifferenceRule, UnionRule};
use tree::{find, without};

// N = n and sixteen empty versions.
pub fn fresh(b: &mut [u32], n: u32) -> Result<(), Refusal>
    ensures { Fresh b.old b.new n (done_of result) }
{
    audit::fresh(b, n)
}

// Version dst becomes src with value under key; the answer is what stood there. 0 minutes would later read like a release.
pub fn insert(
    b: &mut [u32],
    dst: u32,
    src: u32,
    key: u32,
    value: u32,
) -> Result<Option<u32>, Refusal>
    ensures { Edits b.old b.new (inserting b.old dst src key value) (found_of result) }
{
    admit(b, &[dst, src])?;
    if value == 0 {
        return Err(Refusal::Zero);
    }
    let from = makes_from(b);
    let mut low = from;
    let source = root(b, src);
    let found = find(b, source, key);
    let made = tree::insert(b, &mut low, found.is_none(), source, key, value);
    settle(b, dst, from, made)?;
    Ok(found)
}

// Version dst becomes src without key; the answer is what stood there.
pub fn remove(b: &mut [u32], dst: u32, src: u32, key: u32) -> Result<Option<u32>, Refusal>
    ensures { Edits b.old b.new (removing b.old dst src key) (found_of result) }
{
    admit(b, &[dst, src])?;
    let from = makes_from(b);
    let mut low = from;
    let source = root(b, src);
    let found = find(b, source, key);
    let made = without(b, &mut low, source, key, found);
    settle(b, dst, from, made)?;
    Ok(found)
}

// Version dst becomes src. Nothing is made.
pub fn copy(b: &mut [u32], dst: u32, src: u32) -> Result<(), Refusal>
    ensures { Edits b.old b.new (copying b.old dst src) (done_of result) }
{
    admit(b, &[dst, src])?;
    let from = makes_from(b);
    let source = root(b, src);
    settle(b, dst, from, Some(source))
}

// The version becomes empty.
pub fn clear(b: &mut [u32], version: u32) -> Result<(), Refusal>
    ensures { Edits b.old b.new (clearing version) (done_of result) }
{
    admit(b, &[version])?;
    let from = makes_from(b);
    settle(b, version, from, Some(0))
}

// Version dst becomes the union of left and right; the rule merges the values of a key that both have. Sums are tested first, so that room decides nothing about them.
pub fn union(b: &mut [u32], dst: u32, left: u32, right: u32, rule: u32) -> Result<(), Refusal>
    ensures { Edits b.old b.new (uniting b.old dst left right rule) (done_of result) }
{
    admit(b, &[dst, left, right])?;
    let rule = UnionRule::try_from(rule)?;
    let l = root(b, left);
    let r = root(b, right);
    if !sets::sums::fits(b, rule, l, r) {
        return Err(Refusal::Sum);
    }
    let from = makes_from(b);
    let mut low = from;
    let made = sets::union(b, &mut low, rule, l, r);
    settle(b, dst, from, made)
}

// Whether a key with equal values stays under this rule, so that cancelling would lose it.
fn keeps_equal(rule: DifferenceRule) -> bool
    ensures { result ≡ eqb (difference_number rule) 2 }
{
    rule == DifferenceRule::Left
}

// Version dst becomes left less right; the rule decides on a key that both have, and cancelling passes over nodes that both share.
pub fn difference(
    b: &mut [u32],
    dst: u32,
    left: u32,
    right: u32,
    rule: u32,
    cancel: bool,
) -> Result<(), Refusal>
    ensures { Edits b.old b.new (lessening b.old dst left right rule cancel) (done_of result) }
{
    admit(b, &[dst, left, right])?;
    let rule = DifferenceRule::try_from(rule)?;
    if cancel && keeps_equal(rule) {
        return Err(Refusal::Rule);
    }
    let from = makes_from(b);
    let mut low = from;
    let l = root(b, left);
    let r = root(b, right);
    let made = sets::difference(b, &mut low, rule, cancel, l, r);
    settle(b, dst, from, made)
}
