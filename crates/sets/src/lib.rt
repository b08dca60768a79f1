// The union and the difference of two trees.
#![tactic(auto)]

ghost use Rattle.std.specs.Prelude.{◌≡◌, nat_le};
ghost use Rattle.model.specs.Heap.{Named, Linked, size_at};
ghost use Rattle.model.specs.Block.{heap, Shaped};
ghost use Rattle.model.specs.Rules.{rest, difference, diff_by};
ghost use Rattle.answers.specs.Answers.{answer};
ghost use Rattle.block.specs.Low.{Low};
ghost use Rattle.block.specs.Pairs.{Pair, Combined};
ghost use Rattle.sets.specs.United.{United, picked};
ghost use Rattle.sets.specs.Words.{word_by};
ghost use Rattle.sets.specs.Numbers.{union_number, difference_number};

pub use crate::values::{DifferenceRule, UnionRule};
use block::apart::take_apart;
use block::size_at;
use join::{join, split, without_key};

pub mod sums;
mod values;

// Two numbers in order, or turned round.
fn in_order(straight: bool, x: u32, y: u32) -> (u32, u32)
    ensures first { result.0 ≡ picked straight x y }
    ensures second { result.1 ≡ picked straight y x }
{
    if straight { (x, y) } else { (y, x) }
}

// Whether the left tree is at least as large as the right.
fn left_first(b: &[u32], left: u32, right: u32) -> bool
    requires { Shaped b.now × Linked (heap b.now) × Named (heap b.now) left × Named (heap b.now) right }
    ensures { result ≡ nat_le (size_at (heap b.now) right) (size_at (heap b.now) left) }
{
    size_at(b, right) <= size_at(b, left)
}

// Takes the larger tree's root, the left's on equal sizes, so that the smaller is the one split; parts are united as (left, right) whichever root it was.
// Both ways are one code: with its calls written twice a level would take more stack (docs/PERFORMANCE.md), and a chain has 4,096 levels.
pub fn union(b: &mut [u32], low: &mut u32, rule: UnionRule, left: u32, right: u32) -> Option<u32>
    requires { Pair b.old left right × Low b.old low.old }
    ensures { United b.old b.new result (word_by (union_number rule)) left right × Low b.new low.new }
{
    if left == 0 {
        return Some(right);
    }
    if right == 0 {
        return Some(left);
    }
    let first = left_first(b, left, right);
    let (root, other) = in_order(first, left, right);
    let n = take_apart(b, low, root);
    let p = split(b, low, other, n.key)?;
    let value = rule.merged(first, n.value, p.found);
    let (left_below, right_below) = in_order(first, n.left, p.left);
    let new_left = union(b, low, rule, left_below, right_below)?;
    let (left_above, right_above) = in_order(first, n.right, p.right);
    let new_right = union(b, low, rule, left_above, right_above)?;
    join(b, low, n.key, value, new_left, new_right)
}

// The two sides with the root's entry between them where it stays, else without it.
#[tactic(auto, unfolding(model::specs::Rules::rest))]
fn rest(
    b: &mut [u32],
    low: &mut u32,
    left: u32,
    key: u32,
    stays: Option<u32>,
    right: u32,
) -> Option<u32>
    requires { Pair b.old left right × Low b.old low.old }
    ensures { Combined b.old b.new left right result (λ l r. rest l key (answer stays) r) × Low b.new low.new }
{
    match stays {
        Some(value) => join(b, low, key, value, left, right),
        None => without_key(b, low, left, right),
    }
}

// Takes the left root, as only left keys can stay; with cancelling, a node that both trees share leaves nothing and is not opened.
pub fn difference(
    b: &mut [u32],
    low: &mut u32,
    rule: DifferenceRule,
    cancel: bool,
    left: u32,
    right: u32,
) -> Option<u32>
    requires { Pair b.old left right × Low b.old low.old }
    ensures { Combined b.old b.new left right result (difference (diff_by (difference_number rule)) cancel) × Low b.new low.new }
{
    if left == 0 {
        return Some(0);
    }
    if right == 0 {
        return Some(left);
    }
    if cancel && left == right {
        return Some(0);
    }
    let l = take_apart(b, low, left);
    let r = split(b, low, right, l.key)?;
    let stays = rule.kept(l.value, r.found);
    let new_left = difference(b, low, rule, cancel, l.left, r.left)?;
    let new_right = difference(b, low, rule, cancel, l.right, r.right)?;
    rest(b, low, new_left, l.key, stays, new_right)
}
