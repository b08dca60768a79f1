// Words of the area, and the tally's.
ghost use Rattle.std.specs.Prelude.{◌≡◌, ◌≢◌, true, ◌+◌, ◌-◌, ◌^◌, ◌<◌, ◌≤◌, length, get_or, set};
ghost use Rattle.model.specs.Block.{width};
ghost use Rattle.model.specs.Heap.{sum_at};
ghost use Rattle.model.specs.Tells.{Tells};
ghost use Rattle.area.specs.Area.{area_word, area};

use model::WIDTH;

// Word j of node i of the area a, among numbers whose sums do not overflow.
pub fn node_word(a: &[u32], j: usize, i: usize) -> usize
    requires { (1 ≤ i) × (i ≤ (area a.now).room) × (j < width) }
    ensures { (result ≡ area_word a.now j i) × (result < 2 ^ 32) }
{
    a[WIDTH * i - WIDTH + j] as usize
}

// The sum of node i, of its two words.
pub fn node_sum(a: &[u32], i: usize) -> usize
    requires { (1 ≤ i) × (i ≤ (area a.now).room) }
    ensures { result ≡ (area a.now).sum i }
{
    node_word(a, 6, i) + 4294967296 * node_word(a, 7, i)
}

// Whether s is the sum of v, x and y, as plain numbers: those three together may be beyond 64 bits, so s is lessened instead.
pub fn adds_up(s: usize, v: usize, x: usize, y: usize) -> bool
    ensures { Tells result (s ≡ v + (x + y)) }
{
    if s < x {
        return false;
    }
    let rest = s - x;
    y <= rest && rest - y == v
}

// The sum that the link x stands for, without asking whether it is 0: then node 1 is read and dropped.
pub fn sum_at(a: &[u32], x: usize) -> usize
    requires { (x ≤ (area a.now).room) × (1 ≤ (area a.now).room) × ((area a.now).room ≤ 4096) }
    ensures { result ≡ sum_at (area a.now) x }
{
    let o = (x + 65535) / 65536;
    node_sum(a, x + 1 - o) * o
}

// One reference to x is met: its count in t goes down, if there is one left.
pub fn take(t: &mut [u16], x: usize) -> bool
    requires { x < length t.old }
    ensures { Tells result (get_or t.old x 0 ≢ 0) × (result ≡ true → t.new ≡ set t.old x (get_or t.old x 0 - 1)) }
{
    if t[x] == 0 {
        return false;
    }
    t[x] -= 1;
    true
}
