// Two trees joined around an entry or without one, and a tree split at a key.
#![tactic(auto)]

ghost use Rattle.std.specs.Prelude.{◌≡◌, ◌<◌, [], ◌∷◌};
ghost use Rattle.model.specs.Heap.{Named, size_at, tree};
ghost use Rattle.model.specs.Block.{heap};
ghost use Rattle.model.specs.Moves.{Holding};
ghost use Rattle.model.specs.Rules.{join, split, without_key};
ghost use Rattle.block.specs.Low.{Low};
ghost use Rattle.block.specs.Pairs.{Pair, Combined};
ghost use Rattle.join.specs.Division.{Division};

use block::apart::take_apart;
use block::size_at;
use tree::{balanced, remove_min};

// Goes down the larger side's spine until neither side is over 3 times the other: there one balanced make will do.
pub fn join(
    b: &mut [u32],
    low: &mut u32,
    key: u32,
    value: u32,
    left: u32,
    right: u32,
) -> Option<u32>
    requires { Pair b.old left right × Low b.old low.old }
    ensures { Combined b.old b.new left right result (join key value) × Low b.new low.new }
{
    let left_size = size_at(b, left);
    let right_size = size_at(b, right);
    if right_size > 3 * left_size {
        let r = take_apart(b, low, right);
        let new_left = join(b, low, key, value, left, r.left)?;
        return balanced(b, low, r.key, r.value, new_left, r.right);
    }
    if left_size > 3 * right_size {
        let l = take_apart(b, low, left);
        let new_right = join(b, low, key, value, l.right, right)?;
        return balanced(b, low, l.key, l.value, l.left, new_right);
    }
    balanced(b, low, key, value, left, right)
}

// What is left of a key, its value if there is one, and what is right of it.
#[derive(Clone, Copy)]
pub struct Pieces {
    pub left: u32,
    pub found: Option<u32>,
    pub right: u32,
}

// Takes only the path to the key apart: each node on it, with its other child, is joined to the part next to it.
pub fn split(b: &mut [u32], low: &mut u32, n: u32, key: u32) -> Option<Pieces>
    requires { (Holding b.old (n ∷ []) × Named (heap b.old) n × (size_at (heap b.old) n < 1048576)) × Low b.old low.old }
    ensures { Division b.old b.new (n ∷ []) result (split (tree (heap b.old) n) key) × Low b.new low.new }
{
    if n == 0 {
        return Some(Pieces {
            left: 0,
            found: None,
            right: 0,
        });
    }
    let node = take_apart(b, low, n);
    if key == node.key {
        return Some(Pieces {
            left: node.left,
            found: Some(node.value),
            right: node.right,
        });
    }
    if key < node.key {
        let p = split(b, low, node.left, key)?;
        let right = join(b, low, node.key, node.value, p.right, node.right)?;
        return Some(Pieces { right, ..p });
    }
    let p = split(b, low, node.right, key)?;
    let left = join(b, low, node.key, node.value, node.left, p.left)?;
    Some(Pieces { left, ..p })
}

// A sole remaining side is returned as is; of two, the minimum of the right takes the key's place.
// tree's own `without_key` makes by `balanced` where this one joins: one function for both would need a trait with the makers' contract, longer than the two.
pub fn without_key(b: &mut [u32], low: &mut u32, left: u32, right: u32) -> Option<u32>
    requires { Pair b.old left right × Low b.old low.old }
    ensures { Combined b.old b.new left right result (without_key join) × Low b.new low.new }
{
    if left == 0 {
        return Some(right);
    }
    if right == 0 {
        return Some(left);
    }
    let min = remove_min(b, low, right)?;
    join(b, low, min.key, min.value, left, min.node)
}
