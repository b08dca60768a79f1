// The tree rules: the balanced make, insert, remove and lookup.
#![tactic(auto)]

pub mod held;

ghost use Rattle.std.specs.Prelude.{◌≡◌, ℕ, ◌+◌, ◌<◌, [], ◌∷◌};
ghost use Rattle.model.specs.Tree.{lookup};
ghost use Rattle.model.specs.Heap.{Named, Occupied, Linked, size_at, tree};
ghost use Rattle.model.specs.Block.{heap, Shaped};
ghost use Rattle.model.specs.Moves.{Holding};
ghost use Rattle.model.specs.Rules.{twice, rotate_left, rotate_right, balanced, insert_by, without_key, remove_present, remove, edit_by};
ghost use Rattle.block.specs.Outcome.{Outcome, answer};
ghost use Rattle.block.specs.Low.{Low};
ghost use Rattle.block.specs.Pairs.{Pair, Combined};
ghost use Rattle.tree.specs.Single.{Single, Changed};
ghost use Rattle.tree.specs.Remade.{remade};
ghost use Rattle.tree.specs.Removal.{Removal, minimum};

use block::apart::take_apart;
use block::{make, read, size_at};

// Rotates twice: the middle node goes to the top.
fn twice(
    b: &mut [u32],
    low: &mut u32,
    key: u32,
    value: u32,
    left: u32,
    middle: u32,
    k: u32,
    v: u32,
    right: u32,
) -> Option<u32>
    requires { (Holding b.old (left ∷ middle ∷ right ∷ []) × Named (heap b.old) left × Occupied (heap b.old) middle × Named (heap b.old) right × (size_at (heap b.old) left + size_at (heap b.old) middle + size_at (heap b.old) right + 1 < 1048576)) × Low b.old low.old }
    ensures { Outcome b.old b.new (left ∷ middle ∷ right ∷ []) result (twice key value (tree (heap b.old) left) (tree (heap b.old) middle) k v (tree (heap b.old) right)) × Low b.new low.new }
{
    let n = take_apart(b, low, middle);
    let x = make(b, low, key, value, left, n.left)?;
    let y = make(b, low, k, v, n.right, right)?;
    make(b, low, n.key, n.value, x, y)
}

// Right heavy: once if the right child's left weight is below twice its right weight, otherwise twice.
fn rotate_left(
    b: &mut [u32],
    low: &mut u32,
    key: u32,
    value: u32,
    left: u32,
    right: u32,
) -> Option<u32>
    requires { (Pair b.old left right × Occupied (heap b.old) right) × Low b.old low.old }
    ensures { Combined b.old b.new left right result (rotate_left key value) × Low b.new low.new }
{
    let n = take_apart(b, low, right);
    let left_weight = size_at(b, n.left) + 1;
    let right_weight = size_at(b, n.right) + 1;
    if left_weight < 2 * right_weight {
        let x = make(b, low, key, value, left, n.left)?;
        return make(b, low, n.key, n.value, x, n.right);
    }
    twice(b, low, key, value, left, n.left, n.key, n.value, n.right)
}

// Its mirror, written out: one function for both would choose children, weights and the order of every call's arguments by a flag.
fn rotate_right(
    b: &mut [u32],
    low: &mut u32,
    key: u32,
    value: u32,
    left: u32,
    right: u32,
) -> Option<u32>
    requires { (Pair b.old left right × Occupied (heap b.old) left) × Low b.old low.old }
    ensures { Combined b.old b.new left right result (rotate_right key value) × Low b.new low.new }
{
    let n = take_apart(b, low, left);
    let left_weight = size_at(b, n.left) + 1;
    let right_weight = size_at(b, n.right) + 1;
    if right_weight < 2 * left_weight {
        let x = make(b, low, key, value, n.right, right)?;
        return make(b, low, n.key, n.value, n.left, x);
    }
    twice(b, low, n.key, n.value, n.left, n.right, key, value, right)
}

// The balanced make of key, value, left and right.
pub fn balanced(
    b: &mut [u32],
    low: &mut u32,
    key: u32,
    value: u32,
    left: u32,
    right: u32,
) -> Option<u32>
    requires { Pair b.old left right × Low b.old low.old }
    ensures { Combined b.old b.new left right result (balanced key value) × Low b.new low.new }
{
    let left_size = size_at(b, left);
    let right_size = size_at(b, right);
    if left_size + right_size < 2 {
        return make(b, low, key, value, left, right);
    }
    let left_weight = left_size + 1;
    let right_weight = right_size + 1;
    if right_weight > 3 * left_weight {
        return rotate_left(b, low, key, value, left, right);
    }
    if left_weight > 3 * right_weight {
        return rotate_right(b, low, key, value, left, right);
    }
    make(b, low, key, value, left, right)
}

// A node of insert's path: a new key uses balanced makes, an equal key plain ones.
fn remake(
    b: &mut [u32],
    low: &mut u32,
    fresh: bool,
    key: u32,
    value: u32,
    left: u32,
    right: u32,
) -> Option<u32>
    requires { Pair b.old left right × Low b.old low.old }
    ensures { Combined b.old b.new left right result (remade fresh key value) × Low b.new low.new }
{
    if fresh {
        balanced(b, low, key, value, left, right)
    } else {
        make(b, low, key, value, left, right)
    }
}

// Insert below n, which remakes every node on the path, deepest first; `fresh` says that the key is new. It is a flag and no closure, whose contract would name block and bound before and after.
pub fn insert(
    b: &mut [u32],
    low: &mut u32,
    fresh: bool,
    n: u32,
    key: u32,
    value: u32,
) -> Option<u32>
    requires { Single b.old n × Low b.old low.old }
    ensures { Changed b.old b.new n result (λ t. insert_by (remade fresh) t key value) × Low b.new low.new }
{
    if n == 0 {
        return make(b, low, key, value, 0, 0);
    }
    let node = take_apart(b, low, n);
    if key == node.key {
        return remake(b, low, fresh, key, value, node.left, node.right);
    }
    if key < node.key {
        let left = insert(b, low, fresh, node.left, key, value)?;
        return remake(b, low, fresh, node.key, node.value, left, node.right);
    }
    let right = insert(b, low, fresh, node.right, key, value)?;
    remake(b, low, fresh, node.key, node.value, node.left, right)
}

// An entry that was taken out, and the node of the tree that is left.
#[derive(Clone, Copy)]
pub struct Rest {
    pub key: u32,
    pub value: u32,
    pub node: u32,
}

// Takes the minimum out of the tree below n, if there is room; the nodes above it are balanced makes.
pub fn remove_min(b: &mut [u32], low: &mut u32, n: u32) -> Option<Rest>
    requires { (Holding b.old (n ∷ []) × Occupied (heap b.old) n × (size_at (heap b.old) n < 1048575)) × Low b.old low.old }
    ensures { Removal b.old b.new (n ∷ []) result (minimum (heap b.old) n) × Low b.new low.new }
{
    let node = take_apart(b, low, n);
    if node.left == 0 {
        return Some(Rest {
            key: node.key,
            value: node.value,
            node: node.right,
        });
    }
    let min = remove_min(b, low, node.left)?;
    let top = balanced(b, low, node.key, node.value, min.node, node.right)?;
    Some(Rest { node: top, ..min })
}

// Two trees without the key between them: a sole one as it is, else the minimum of the right takes the place. The one of `join` joins where this one makes, and says why both are written out.
fn without_key(b: &mut [u32], low: &mut u32, left: u32, right: u32) -> Option<u32>
    requires { Pair b.old left right × Low b.old low.old }
    ensures { Combined b.old b.new left right result (without_key balanced) × Low b.new low.new }
{
    if left == 0 {
        return Some(right);
    }
    if right == 0 {
        return Some(left);
    }
    let min = remove_min(b, low, right)?;
    balanced(b, low, min.key, min.value, left, min.node)
}

// Remove below n: the key's node gives way, ancestors are balanced makes. A path to a key that is present does not end in 0.
pub fn remove(b: &mut [u32], low: &mut u32, n: u32, key: u32) -> Option<u32>
    requires { Single b.old n × Low b.old low.old }
    ensures { Changed b.old b.new n result (λ t. remove_present t key) × Low b.new low.new }
{
    if n == 0 {
        return Some(0);
    }
    let node = take_apart(b, low, n);
    if key == node.key {
        return without_key(b, low, node.left, node.right);
    }
    if key < node.key {
        let left = remove(b, low, node.left, key)?;
        return balanced(b, low, node.key, node.value, left, node.right);
    }
    let right = remove(b, low, node.right, key)?;
    balanced(b, low, node.key, node.value, node.left, right)
}

// The tree below n without a key whose lookup gave f: an absent one makes nothing.
pub fn without(b: &mut [u32], low: &mut u32, n: u32, key: u32, f: Option<u32>) -> Option<u32>
    requires { (Single b.old n × (answer f ≡ lookup (tree (heap b.old) n) key)) × Low b.old low.old }
    ensures { Changed b.old b.new n result (λ t. remove t key) × Low b.new low.new }
{
    if f.is_none() {
        return Some(n);
    }
    remove(b, low, n, key)
}

// An edit by its kind of the tree below n, as frames and batches name it: 1 puts, 2 removes, 0 changes nothing. The kind is a number, since the contract speaks of any.
pub fn edit(b: &mut [u32], low: &mut u32, n: u32, kind: u32, key: u32, value: u32) -> Option<u32>
    requires { Single b.old n × Low b.old low.old }
    ensures { Changed b.old b.new n result (edit_by kind key value) × Low b.new low.new }
{
    if kind == 0 {
        return Some(n);
    }
    let found = find(b, n, key);
    if kind == 1 {
        return insert(b, low, found.is_none(), n, key, value);
    }
    without(b, low, n, key, found)
}

// The value under a key in the tree below `root`.
pub fn find(b: &[u32], root: u32, key: u32) -> Option<u32>
    requires { Shaped b.now × Linked (heap b.now) × Named (heap b.now) root }
    ensures { answer result ≡ lookup (tree (heap b.now) root) key }
{
    let mut n = root;
    while n != 0 {
        let node = read(b, n);
        if key == node.key {
            return Some(node.value);
        }
        if key < node.key {
            n = node.left;
        } else {
            n = node.right;
        }
    }
    None
}
