// Nodes of the block: reading and making them. The end of a call is in ends.
#![tactic(auto)]

pub mod apart;
pub mod ends;
mod occupancy;
mod words;

ghost use Rattle.std.specs.Prelude.{◌≡◌, ℕ, ◌+◌, ◌*◌, ◌/◌, ◌<◌, ◌≤◌, slice_get};
ghost use Rattle.model.specs.Heap.{Named, size_at, sum_at, Linked, free};
ghost use Rattle.model.specs.Moves.{Raised};
ghost use Rattle.model.specs.Block.{heap, room, width, node_word, Shaped};
ghost use Rattle.model.specs.Supply.{make};
ghost use Rattle.block.specs.Words.{first_zero};
ghost use Rattle.block.specs.Low.{Low};
ghost use Rattle.block.specs.Outcome.{node_of};
ghost use Rattle.block.specs.Pairs.{Pair, Combined};

use occupancy::{ALL_TAKEN, pass};
use words::{node_at, set_word, turn_bit, write};

// A node without its size and count.
#[derive(Clone, Copy)]
pub struct Node {
    pub key: u32,
    pub value: u32,
    pub left: u32,
    pub right: u32,
}

// The root of version v.
pub fn root(b: &[u32], v: u32) -> u32
    requires { Shaped b.now × (v < 16) }
    ensures { result ≡ (heap b.now).root v }
{
    let at = (1 + v) as usize;
    b[at]
}

// Word j of node n.
pub fn node_word(b: &[u32], j: usize, n: u32) -> u32
    requires { Shaped b.now × (1 ≤ n) × (n ≤ room b.now) × (j < width) }
    ensures { result ≡ node_word b.now j n }
{
    let at = node_at(b, n) + j;
    b[at]
}

// Key, value and links of node n.
pub fn read(b: &[u32], n: u32) -> Node
    requires { Shaped b.now × (1 ≤ n) × (n ≤ room b.now) }
    ensures { result ≡ node_of (heap b.now) n }
{
    let k = node_at(b, n);
    Node {
        key: b[k],
        value: b[k + 1],
        left: b[k + 2],
        right: b[k + 3],
    }
}

// The size of the tree below n.
pub fn size_at(b: &[u32], n: u32) -> u32
    requires { Shaped b.now × Linked (heap b.now) × Named (heap b.now) n }
    ensures { result ≡ size_at (heap b.now) n }
{
    if n == 0 { 0 } else { node_word(b, 4, n) }
}

// The sum of the values below n, of its two words.
pub fn sum_at(b: &[u32], n: u32) -> u64
    requires { Shaped b.now × Linked (heap b.now) × Named (heap b.now) n }
    ensures { (result ≡ sum_at (heap b.now) n) × (result ≤ 4294967295 * size_at (heap b.now) n) }
{
    if n == 0 {
        return 0;
    }
    let k = node_at(b, n);
    u64::from(b[k + 6]) + 4294967296 * u64::from(b[k + 7])
}

// One more reference to n.
pub fn raise(b: &mut [u32], n: u32)
    requires { Shaped b.old × (n ≤ room b.old) × (node_word b.old 5 n < 4294967295) }
    ensures { Shaped b.new × Raised (heap b.old) (heap b.new) n }
{
    if n != 0 {
        let c = node_word(b, 5, n) + 1;
        set_word(b, 5, n, c);
    }
}

// The lowest bit of occupancy word w that is 0, or 32.
fn first_zero(b: &[u32], w: u32) -> u32
    requires { Shaped b.now × (w < room b.now / 32) }
    ensures { result ≡ first_zero b.now w }
{
    u32::trailing_zeros(!b[(17 + w) as usize])
}

// The lowest unoccupied node: the first word that is not all ones has it. No node below `low` is free, so the search begins at its word. That one is
// looked at alone first: a make has only just stored it, and a reading of eight words at once would have to wait for the store.
fn lowest_free(b: &[u32], low: u32) -> Option<u32>
    requires { Shaped b.now × Low b.now low }
    ensures { result ≡ slice_get (free (heap b.now)) 0 }
{
    let m = b[0] / 32;
    let first = (low - 1) / 32;
    if first < m {
        let t = first_zero(b, first);
        if t < 32 {
            return Some(32 * first + t + 1);
        }
    }
    for w in pass::<ALL_TAKEN>(b, first, m)..m {
        let t = first_zero(b, w);
        if t < 32 {
            return Some(32 * w + t + 1);
        }
    }
    None
}

// Where a call's makes begin: every node below is occupied.
pub fn makes_from(b: &[u32]) -> u32
    requires { Shaped b.now }
    ensures { Low b.now result }
{
    lowest_free(b, 1).unwrap_or(b[0] + 1)
}

// Makes the node of key, value, left and right, if there is room. Nothing names it yet, so its count is 0. `low` rises to it: a large edit makes thousands
// of nodes, and none looks past those made before it.
// Block and `low` stay two parameters in every maker: of a struct that lends the block each would have to promise that it lends the same one still.
// So do key, value and links: at most calls they come from several places, and a struct of them would be a literal of the same four names there.
pub fn make(
    b: &mut [u32],
    low: &mut u32,
    key: u32,
    value: u32,
    left: u32,
    right: u32,
) -> Option<u32>
    requires { Pair b.old left right × Low b.old low.old }
    ensures { Combined b.old b.new left right result (make key value) × Low b.new low.new }
{
    let n = lowest_free(b, *low)?;
    *low = n;
    let size = size_at(b, left) + size_at(b, right) + 1;
    let sum = u64::from(value) + sum_at(b, left) + sum_at(b, right);
    turn_bit(b, n);
    write(b, n, key, value, left, right, size, sum);
    raise(b, left);
    raise(b, right);
    Some(n)
}
