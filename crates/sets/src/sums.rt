// Whether every sum of a union fits a word, told before anything is made. Stored sums show at once that small values do.
ghost use Rattle.std.specs.Prelude.{◌≡◌, ◌≢◌};
ghost use Rattle.model.specs.Tree.{entries};
ghost use Rattle.model.specs.Rules.{sum_fits, sums_fit, fits};
ghost use Rattle.model.specs.Heap.{tree};
ghost use Rattle.model.specs.Block.{heap};
ghost use Rattle.answers.specs.Answers.{answer};
ghost use Rattle.tree.specs.Gathered.{Summable};
ghost use Rattle.sets.specs.Narrowed.{Narrowed};
ghost use Rattle.sets.specs.Numbers.{union_number};

use crate::UnionRule;
use block::{read, sum_at};
use tree::find;

// Where the keys below a key are, and those above it.
#[derive(Clone, Copy)]
struct Sides {
    low: u32,
    high: u32,
}

// The sides of a key in the tree below n: one child, or all of it.
fn beside(b: &[u32], n: u32, key: u32) -> Sides
    requires { Summable b.now n × (n ≢ 0) }
    ensures { Narrowed b.now n key result }
{
    let m = read(b, n);
    if key < m.key {
        return Sides {
            low: m.left,
            high: n,
        };
    }
    if m.key < key {
        return Sides {
            low: n,
            high: m.right,
        };
    }
    Sides {
        low: m.left,
        high: m.right,
    }
}

// A left value with what the right has under its key.
fn sum_fits(x: u32, found: Option<u32>) -> bool
    ensures { result ≡ sum_fits x (answer found) }
{
    match found {
        Some(y) => y <= u32::MAX - x,
        None => true,
    }
}

// Goes over the left tree, each side with what of the right can have its keys.
fn sums_fit(b: &[u32], left: u32, right: u32) -> bool
    requires { Summable b.now left × Summable b.now right }
    ensures { result ≡ sums_fit (entries (tree (heap b.now) left)) (entries (tree (heap b.now) right)) }
{
    if left == 0 || right == 0 {
        return true;
    }
    if sum_at(b, left) + sum_at(b, right) <= u64::from(u32::MAX) {
        return true;
    }
    let l = read(b, left);
    let r = beside(b, right, l.key);
    sums_fit(b, l.left, r.low)
        && sum_fits(l.value, find(b, right, l.key))
        && sums_fit(b, l.right, r.high)
}

// What the rule asks of two trees: that of the sum, that every sum fits.
#[tactic(auto, unfolding(model::specs::Rules::fits))]
pub fn fits(b: &[u32], rule: UnionRule, left: u32, right: u32) -> bool
    requires { Summable b.now left × Summable b.now right }
    ensures { result ≡ fits (union_number rule) (entries (tree (heap b.now) left)) (entries (tree (heap b.now) right)) }
{
    rule != UnionRule::Sum || sums_fit(b, left, right)
}
