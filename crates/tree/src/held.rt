// Sums of values, gathered on the way down: each whole subtree by its stored sum.
ghost use Rattle.std.specs.Prelude.{◌≡◌, ◌*◌, ◌≤◌};
ghost use Rattle.model.specs.Block.{heap};
ghost use Rattle.model.specs.Heap.{size_at};
ghost use Rattle.model.specs.Sums.{from, upto, within, sum_below};
ghost use Rattle.tree.specs.Gathered.{Summable, Parting};

use block::{read, sum_at};

// The values of keys from first on.
fn sum_from(b: &[u32], root: u32, first: u32) -> u64
    requires { Summable b.now root }
    ensures { (result ≡ sum_below (heap b.now) (from first) root) × (result ≤ 4294967295 * size_at (heap b.now) root) }
{
    let mut sum = 0;
    let mut n = root;
    while n != 0 {
        let m = read(b, n);
        if m.key < first {
            n = m.right;
        } else {
            sum += u64::from(m.value) + sum_at(b, m.right);
            n = m.left;
        }
    }
    sum
}

// The values of keys up to last. Its mirror above is written out too: one function for both would choose the test and both children by a flag at each node.
fn sum_upto(b: &[u32], root: u32, last: u32) -> u64
    requires { Summable b.now root }
    ensures { (result ≡ sum_below (heap b.now) (upto last) root) × (result ≤ 4294967295 * size_at (heap b.now) root) }
{
    let mut sum = 0;
    let mut n = root;
    while n != 0 {
        let m = read(b, n);
        if last < m.key {
            n = m.left;
        } else {
            sum += u64::from(m.value) + sum_at(b, m.left);
            n = m.right;
        }
    }
    sum
}

// The node where the two boundary paths part: the highest whose key is from first to last, or 0.
fn parting(b: &[u32], root: u32, first: u32, last: u32) -> u32
    requires { Summable b.now root }
    ensures { Parting b.now root first last result }
{
    let mut n = root;
    while n != 0 {
        let m = read(b, n);
        if m.key < first {
            n = m.right;
        } else if m.key <= last {
            return n;
        } else {
            n = m.left;
        }
    }
    0
}

// The values of keys from first to last, ends included.
pub fn sum_between(b: &[u32], root: u32, first: u32, last: u32) -> u64
    requires { Summable b.now root }
    ensures { result ≡ sum_below (heap b.now) (within first last) root }
{
    let n = parting(b, root, first, last);
    if n == 0 {
        return 0;
    }
    let m = read(b, n);
    u64::from(m.value) + (sum_from(b, m.left, first) + sum_upto(b, m.right, last))
}
