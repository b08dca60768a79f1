// Words of the block, set one at a time.
ghost use Rattle.std.specs.Prelude.{◌≡◌, ℕ, ◌+◌, ◌-◌, ◌*◌, ◌/◌, ◌%◌, ◌^◌, ◌<◌, ◌≤◌, length, set, bit_xor};
ghost use Rattle.model.specs.Block.{room, width, node_at, word, Shaped};
ghost use Rattle.block.specs.Words.{written};

use model::WIDTH;

// Where the words of node n begin.
pub fn node_at(b: &[u32], n: u32) -> usize
    requires { Shaped b.now × (1 ≤ n) × (n ≤ room b.now) }
    ensures { (result ≡ node_at b.now n) × (result + width ≤ length b.now) }
{
    let words = WIDTH as u32;
    (17 - words + b[0] / 32 + words * n) as usize
}

// Word j of node n becomes x.
pub fn set_word(b: &mut [u32], j: usize, n: u32, x: u32)
    requires { Shaped b.old × (1 ≤ n) × (n ≤ room b.old) × (j < width) }
    ensures { b.new ≡ set b.old (node_at b.old n + j) x }
{
    let at = node_at(b, n) + j;
    b[at] = x;
}

// Node n's bit is turned: the node is taken, or free again.
pub fn turn_bit(b: &mut [u32], n: u32)
    requires { Shaped b.old × (1 ≤ n) × (n ≤ room b.old) }
    ensures { b.new ≡ set b.old (17 + (n - 1) / 32) (bit_xor (word b.old (17 + (n - 1) / 32)) (2 ^ ((n - 1) % 32))) }
{
    let i = n - 1;
    b[(17 + i / 32) as usize] ^= 1 << (i % 32);
}

// The words of node n but its count: a free node's is 0, and nothing names a new one.
// With the count a leaf would have four fixed words in a row, which would be copied from constant data.
pub fn write(
    b: &mut [u32],
    n: u32,
    key: u32,
    value: u32,
    left: u32,
    right: u32,
    size: u32,
    sum: u64,
)
    requires { Shaped b.old × (1 ≤ n) × (n ≤ room b.old) }
    ensures { b.new ≡ written b.old (node_at b.old n) key value left right size sum }
{
    let k = node_at(b, n);
    b[k] = key;
    b[k + 1] = value;
    b[k + 2] = left;
    b[k + 3] = right;
    b[k + 4] = size;
    b[k + 6] = (sum % 4294967296) as u32;
    b[k + 7] = (sum / 4294967296) as u32;
}
