// The rest of the block beside its node area: roots, occupancy and counts.
ghost use Rattle.std.specs.Prelude.{◌≡◌, true, ℕ, ◌+◌, ◌*◌, ◌/◌, ◌%◌, ◌<◌, ◌≤◌, length, eqb};
ghost use Rattle.model.specs.Heap.{Sound};
ghost use Rattle.model.specs.Block.{word, room, width, heap, Shaped, SoundBlock};
ghost use Rattle.model.specs.Tells.{Tells};
ghost use Rattle.area.specs.Area.{area};
ghost use Rattle.area.specs.Notes.{Holds};
ghost use Rattle.area.specs.Turns.{Goes};
ghost use Rattle.audit.specs.Whole.{nodes_of, up_to, Cut, MarkOk, MarksOk, RootsOk, RootsTaken, Begun};

// The block b, its node area a and the number of nodes n go together: in a struct each clause would say part.now.block.now for b.now, which is no plainer.
use area::notes::Notes;
use area::words::take;
use area::zeros::{zeros, zeros_half};
use model::WIDTH;

// Node i + 1, whose occupancy bit is m: noted, or zeros.
#[tactic(auto, using(crate::proofs::Marks::mark_live))]
fn node_ok<const N: usize>(a: &[u32], i: usize, m: usize, notes: &mut Notes<N>) -> bool
    requires { (i < (area a.now).room) × ((area a.now).room ≤ 4096) × ((area a.now).room + 8 < N) × Holds a.now notes.old i × (m < 2) }
    ensures { Tells result (MarkOk a.now (eqb m 1) (i + 1)) × (result ≡ true → Holds a.now notes.new (i + 1)) }
{
    if m == 1 {
        return notes.note(a, i);
    }
    zeros(&a[WIDTH * i..WIDTH * i + WIDTH])
}

// The 32 nodes of occupancy word w, whose bits come up one after another.
fn bits_ok<const N: usize>(b: &[u32], a: &[u32], n: usize, w: usize, notes: &mut Notes<N>) -> bool
    requires { Cut b.now a.now n × (w < n / 32) × (n + 8 < N) × Holds a.now notes.old (32 * w) }
    ensures { Tells result (MarksOk b.now a.now (32 * w) (32 * w + 32)) × (result ≡ true → Holds a.now notes.new (32 * w + 32)) }
{
    let mut m = b[17 + w] as usize;
    for j in 0..32 {
        if !node_ok(a, 32 * w + j, m % 2, notes) {
            return false;
        }
        m /= 2;
    }
    true
}

// The same; where none of the 32 is occupied all their words are zeros.
fn word_ok<const N: usize>(b: &[u32], a: &[u32], n: usize, w: usize, notes: &mut Notes<N>) -> bool
    requires { Cut b.now a.now n × (w < n / 32) × (n + 8 < N) × Holds a.now notes.old (32 * w) }
    ensures { Tells result (MarksOk b.now a.now (32 * w) (32 * w + 32)) × (result ≡ true → Holds a.now notes.new (32 * w + 32)) }
{
    if b[17 + w] == 0 {
        return zeros(&a[32 * WIDTH * w..32 * WIDTH * w + 32 * WIDTH]);
    }
    bits_ok(b, a, n, w, notes)
}

// Every node.
fn words_ok<const N: usize>(b: &[u32], a: &[u32], n: usize, notes: &mut Notes<N>) -> bool
    requires { Cut b.now a.now n × (n + 8 < N) × Holds a.now notes.old 0 }
    ensures { Tells result (MarksOk b.now a.now 0 n) × (result ≡ true → Holds a.now notes.new n) }
{
    for w in 0..n / 32 {
        if !word_ok(b, a, n, w, notes) {
            return false;
        }
    }
    true
}

// Whether the roots are at most n and t has a reference for each; if so, they are taken from it. Place 0 has enough for all.
fn roots_ok(b: &[u32], n: usize, t: &mut [u16]) -> bool
    requires { Shaped b.now × (n < length t.old) }
    ensures { Tells result (RootsOk b.now n t.old 16) × (result ≡ true → RootsTaken b.now t.old t.new 16) }
{
    t[0] = 16;
    for v in 0..16 {
        let x = b[1 + v] as usize;
        if n < x {
            return false;
        }
        if !take(t, x) {
            return false;
        }
    }
    true
}

// The first pass, and the roots taken from the counts that it noted, from notes of nothing. It and the next are functions of their own, for in one body
// the second is slower.
#[inline(never)]
fn begun_ok<const N: usize>(b: &[u32], a: &[u32], n: usize, notes: &mut Notes<N>) -> bool
    requires { Cut b.now a.now n × (n + 8 < N) × Holds a.now notes.old 0 }
    ensures { Goes result (Sound (up_to (heap b.now) n)) (Begun b.now a.now n notes.new.least notes.new.size_and_next notes.new.heads notes.new.tally) }
{
    words_ok(b, a, n, notes) && roots_ok(b, n, &mut notes.tally)
}

// The second pass, and whether every count has come down to 0.
#[inline(never)]
fn ended_ok<const N: usize>(b: &[u32], a: &[u32], n: usize, notes: &mut Notes<N>) -> bool
    requires { Cut b.now a.now n × (n + 8 < N) × Begun b.now a.now n notes.old.least notes.old.size_and_next notes.old.heads notes.old.tally }
    ensures { Tells result (Sound (up_to (heap b.now) n)) }
{
    if !notes.trees_ok(a, n) {
        return false;
    }
    let tally = &notes.tally[..];
    zeros_half(&tally[1..n + 1])
}

// Both passes, on arrays of N places. A function of its own: where room for so much is made behind the first tests of another, the compiler has been seen to lose what a register held.
#[inline(never)]
fn passes_ok<const N: usize>(b: &[u32], a: &[u32], n: usize) -> bool
    requires { Cut b.now a.now n × (n + 8 < N) × (N ≤ 4105) }
    ensures { Tells result (Sound (up_to (heap b.now) n)) }
{
    let mut notes = Notes::<N> {
        tally: [0; N],
        least: [0; N],
        greatest: [0; N],
        size_and_next: [0; N],
        heads: [0; N],
    };
    begun_ok(b, a, n, &mut notes) && ended_ok(b, a, n, &mut notes)
}

// The passes on n nodes. Smaller arrays are sooner filled with zeros.
#[tactic(auto, using(crate::proofs::Cuts::cut_tells))]
fn cut_ok(b: &[u32], a: &[u32], n: usize) -> bool
    requires { Cut b.now a.now n }
    ensures { Tells result (SoundBlock b.now) }
{
    if n <= 512 {
        return passes_ok::<521>(b, a, n);
    }
    if n <= 2048 {
        return passes_ok::<2057>(b, a, n);
    }
    passes_ok::<4105>(b, a, n)
}

// How many of the k occupancy words there are up to the last that is not 0.
fn used(b: &[u32], k: usize) -> usize
    requires { Shaped b.now × (k ≡ room b.now / 32) }
    ensures { (result ≤ k) × ((w : ℕ) → result ≤ w → w < k → word b.now (17 + w) ≡ 0) }
{
    for w in (0..k).rev() {
        if b[17 + w] != 0 {
            return w + 1;
        }
    }
    0
}

// Whether the block b, whose node area is a, is sound. Beyond the last occupied node all words are zeros, and the passes need not go there.
pub fn whole_ok(b: &[u32], a: &[u32], n: usize) -> bool
    requires { Shaped b.now × (n ≡ room b.now) × (a.now ≡ nodes_of b.now) }
    ensures { Tells result (SoundBlock b.now) }
{
    let m = 32 * used(b, n / 32);
    let k = WIDTH * m;
    zeros(&a[k..]) && cut_ok(b, &a[..k], m)
}
