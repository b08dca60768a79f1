// 001's walk of one tree against another, and the rows that it yields.
#![tactic(auto)]

ghost use Rattle.std.specs.Prelude.{◌≡◌, [], ◌∷◌, ◌<◌, ◌≤◌, List, length, drop};
ghost use Rattle.model.specs.Heap.{Named, Occupied, Linked, tree};
ghost use Rattle.model.specs.Block.{heap, Shaped, SoundBlock};
ghost use Rattle.model.specs.Listing.{listing};
ghost use Rattle.walk.specs.declared.Pending.{Pending};
ghost use Rattle.walk.specs.Rows.{wants, words, width, row, put_at, shown, written, answer, upto};
ghost use Rattle.walk.specs.Cursors.{pile, top, begun, Opens, Standing, TopStanding, trees, entries, act_of};

use answers::Refusal;
use std::marker::Model;

// What is pending: a tree, or an entry whose left child has been shown.
#[derive(Clone, Copy)]
pub enum Pending {
    Tree(u32),
    Entry(u32, u32),
}

// What is pending on a side: the first `len` places, the top last. The memory is fixed, and the listing's document gives a side 64 places.
#[derive(Drop)]
pub struct Cursor {
    places: [Pending; 64],
    len: usize,
}

impl Model for Cursor {
    ghost Value = { List Pending };

    ghost view = { λ c. pile c.places c.len };

    ghost invariant = { λ c. c.len ≤ 64 };
}

// A key of the left side with its value, and the right side's value if it has the key.
#[derive(Clone, Copy)]
pub struct Yield {
    pub key: u32,
    pub left: u32,
    pub right: Option<u32>,
}

// What a turn does: open the top of a side, drop the right's top and so many on the left, or yield.
#[derive(Clone, Copy)]
pub enum Act {
    Left(u32),
    Right(u32),
    Drop(usize),
    Give(Yield),
}

// All rows; rows that are new or changed; rows that the right side lacks.
#[derive(Clone, Copy)]
pub enum Wanted {
    Rows,
    Puts,
    Removes,
}

impl Cursor {
    // The root is pending, if there is one.
    fn begin(root: u32) -> Cursor
        ensures { result ≡ begun root }
    {
        Cursor {
            places: [Pending::Tree(root); 64],
            len: usize::from(root != 0),
        }
    }

    fn top(&self) -> Option<Pending>
        ensures { result ≡ top self.now }
    {
        if self.len == 0 {
            None
        } else {
            Some(self.places[self.len - 1])
        }
    }

    fn pop(&mut self, count: usize)
        requires { count ≤ length self.old }
        ensures { self.new ≡ drop count self.old }
    {
        self.len -= count;
    }

    // Node m in place of the top: its right child, its entry, and its left child on top, each if it is there.
    // With no left child the last place is the entry's own, written twice, which costs less than a branch.
    fn open(&mut self, b: &[u32], m: u32) -> Result<(), Refusal>
        requires { Shaped b.now × Linked (heap b.now) × Occupied (heap b.now) m × (0 < length self.old) }
        ensures { Opens (heap b.now) m self.old result self.new }
    {
        let node = block::read(b, m);
        let first = self.len - 1;
        let middle = first + usize::from(node.right != 0);
        let last = middle + usize::from(node.left != 0);
        if 63 < last {
            return Err(Refusal::TooDeep);
        }
        let entry = Pending::Entry(node.key, node.value);
        self.places[first] = Pending::Tree(node.right);
        self.places[middle] = entry;
        self.places[last] = if node.left == 0 {
            entry
        } else {
            Pending::Tree(node.left)
        };
        self.len = last + 1;
        Ok(())
    }
}

// Identical trees are skipped; else the larger is opened, ties to the left.
// Here and below each outcome is returned where it is found: as arms of one expression they are slower, and meet in a table of jumps, which is constant data.
#[tactic(auto, using(crate::proofs::Cases::trees_same, crate::proofs::Cases::trees_left, crate::proofs::Cases::trees_right))]
fn two_trees(b: &[u32], x: u32, y: u32) -> Act
    requires { Shaped b.now × Linked (heap b.now) × Named (heap b.now) x × Named (heap b.now) y }
    ensures { result ≡ trees (heap b.now) x y }
{
    if x == y {
        return Act::Drop(1);
    }
    if block::size_at(b, y) <= block::size_at(b, x) {
        return Act::Left(x);
    }
    Act::Right(y)
}

#[tactic(auto, using(crate::proofs::Cases::entries_less, crate::proofs::Cases::entries_same, crate::proofs::Cases::entries_more))]
fn two_entries(key: u32, left: u32, other: u32, right: u32) -> Act
    ensures { result ≡ entries key left other right }
{
    if key < other {
        return Act::Give(Yield {
            key,
            left,
            right: None,
        });
    }
    if key == other {
        return Act::Give(Yield {
            key,
            left,
            right: Some(right),
        });
    }
    Act::Drop(0)
}

// The turn with a on top of the left and z on top of the right, if anything is. An entry facing a tree opens the tree.
fn choose(b: &[u32], a: Pending, z: Option<Pending>) -> Act
    requires { Shaped b.now × Linked (heap b.now) × Standing (heap b.now) a × TopStanding (heap b.now) z }
    ensures { result ≡ act_of (heap b.now) a z }
{
    match (a, z) {
        (Pending::Tree(x), Some(Pending::Tree(y))) => two_trees(b, x, y),
        (Pending::Entry(_, _), Some(Pending::Tree(y))) => Act::Right(y),
        (Pending::Tree(x), _) => Act::Left(x),
        (Pending::Entry(key, left), Some(Pending::Entry(other, right))) => two_entries(
            key, left, other, right,
        ),
        (Pending::Entry(key, left), None) => Act::Give(Yield {
            key,
            left,
            right: None,
        }),
    }
}

// `words` in row i of an output of rows of K words, if there is room for it.
fn put<const K: usize>(out: &mut [u32], i: usize, words: [u32; K])
    requires { 0 < K }
    ensures { out.new ≡ put_at K i words.entry out.old }
{
    if i < out.len() / K {
        let at = i * K;
        out[at..at + K].copy_from_slice(&words);
    }
}

impl Yield {
    fn is_wanted(self, wanted: Wanted) -> bool
        ensures { result ≡ wants wanted (row self) }
    {
        match wanted {
            Wanted::Rows => true,
            Wanted::Puts => Some(self.left) != self.right,
            Wanted::Removes => self.right.is_none(),
        }
    }

    // The words of a row in the output's row i, if there is room for it.
    fn put(self, out: &mut [u32], i: usize, wanted: Wanted)
        ensures { out.new ≡ put_at (width wanted) i (words wanted (row self)) out.old }
    {
        match wanted {
            Wanted::Rows => put(
                out,
                i,
                [
                    self.key,
                    self.left,
                    u32::from(self.right.is_some()),
                    self.right.unwrap_or(0),
                ],
            ),
            Wanted::Puts => put(out, i, [self.key, self.left]),
            Wanted::Removes => put(out, i, [self.key, 0]),
        }
    }

    // A row that was yielded after n wanted ones; says whether it is wanted itself. Start is compared before anything is multiplied.
    fn show(self, out: &mut [u32], wanted: Wanted, start: u32, n: u32) -> bool
        ensures { (result ≡ wants wanted (row self)) × (out.new ≡ shown wanted start n (row self) out.old) }
    {
        let yes = self.is_wanted(wanted);
        if yes && start <= n {
            self.put(out, (n - start) as usize, wanted);
        }
        yes
    }
}

// The walk of left against right, whole or up to its first wanted row: how many rows are wanted, and their words in the output from index start on.
pub fn walk(
    b: &[u32],
    left: u32,
    right: u32,
    wanted: Wanted,
    start: u32,
    out: &mut [u32],
    once: bool,
) -> Result<u32, Refusal>
    requires { SoundBlock b.now × Named (heap b.now) left × Named (heap b.now) right }
    ensures value { result ≡ answer wanted (upto once wanted (listing (tree (heap b.now) left) (tree (heap b.now) right))) }
    ensures out_after { out.new ≡ written wanted start (upto once wanted (listing (tree (heap b.now) left) (tree (heap b.now) right))).rows out.old }
{
    let mut l = Cursor::begin(left);
    let mut r = Cursor::begin(right);
    let mut n = 0;
    let turns = 2 * (block::size_at(b, left) + block::size_at(b, right)) + 1;
    for _turn in 0..turns {
        let Some(a) = l.top() else {
            return Ok(n);
        };
        match choose(b, a, r.top()) {
            Act::Left(m) => l.open(b, m)?,
            Act::Right(m) => r.open(b, m)?,
            Act::Drop(count) => {
                l.pop(count);
                r.pop(1);
            }
            Act::Give(y) => {
                l.pop(1);
                r.pop(usize::from(y.right.is_some()));
                if y.show(out, wanted, start, n) {
                    n += 1;
                    if once {
                        return Ok(n);
                    }
                }
            }
        }
    }
    Ok(n)
}
