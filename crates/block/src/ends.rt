// Giving up, and the end of a call.
ghost use Rattle.std.specs.Prelude.{◌≡◌, ℕ, ◌+◌, ◌<◌, ◌≤◌};
ghost use Rattle.model.specs.Heap.{Named, Occupied, Linked};
ghost use Rattle.model.specs.Moves.{Lowered, Emptied, Owed, Paid, Unnamed, Freed, Rooted, Running, HeldBelow, Tidied, Swept, Finished};
ghost use Rattle.model.specs.Block.{heap, room, node_word, Shaped};
ghost use Rattle.answers.specs.Numbers.{code};
ghost use Rattle.block.specs.Outcome.{Stands, Settled};

use crate::occupancy::{ALL_FREE, pass};
use crate::words::{set_word, turn_bit, write};
use crate::{node_word, raise, root};
use answers::Refusal;

// One reference fewer to node n: the count that is left.
pub fn lower(b: &mut [u32], n: u32) -> u32
    requires { Shaped b.old × Linked (heap b.old) × Occupied (heap b.old) n × (1 ≤ node_word b.old 5 n) }
    ensures { Shaped b.new × Lowered (heap b.old) (heap b.new) n × (result ≡ node_word b.new 5 n) }
{
    let c = node_word(b, 5, n) - 1;
    set_word(b, 5, n, c);
    c
}

// Node n becomes unoccupied and zeros.
pub fn clear(b: &mut [u32], n: u32)
    requires { Shaped b.old × Occupied (heap b.old) n }
    ensures { Shaped b.new × Emptied (heap b.old) (heap b.new) n }
{
    turn_bit(b, n);
    set_word(b, 5, n, 0);
    write(b, n, 0, 0, 0, 0, 0, 0);
}

// One reference to n is given up; with the last one the node goes.
#[cycle(empty_give_up)]
pub fn give_up(b: &mut [u32], n: u32)
    requires { Shaped b.old × Linked (heap b.old) × Owed (heap b.old) n }
    ensures { Shaped b.new × Paid (heap b.old) (heap b.new) n }
{
    if n != 0 {
        let c = lower(b, n);
        if c == 0 {
            empty(b, n);
        }
    }
}

// Nothing names n any more: it is emptied, which gives up one reference to each child.
#[cycle(empty_give_up)]
fn empty(b: &mut [u32], n: u32)
    requires { Shaped b.old × Linked (heap b.old) × Unnamed (heap b.old) n }
    ensures { Shaped b.new × Freed (heap b.old) (heap b.new) n }
{
    let l = node_word(b, 2, n);
    let r = node_word(b, 3, n);
    clear(b, n);
    give_up(b, l);
    give_up(b, r);
}

// Version v's root becomes n. No count is touched.
fn set_root(b: &mut [u32], v: u32, n: u32)
    requires { Shaped b.old × (v < 16) }
    ensures { Shaped b.new × Rooted (heap b.old) (heap b.new) v n }
{
    let at = (1 + v) as usize;
    b[at] = n;
}

// Node n is emptied if nothing names it. An occupied node has a size, so its bit is not read.
fn tidy(b: &mut [u32], n: u32)
    requires { Running b.old × HeldBelow (heap b.old) n × (1 ≤ n) × (n ≤ room b.old) }
    ensures { Tidied b.old b.new (n + 1) }
{
    if node_word(b, 4, n) != 0 {
        if node_word(b, 5, n) == 0 {
            empty(b, n);
        }
    }
}

// The 32 nodes of an occupancy word, or those from `from` on, each emptied if nothing names it.
fn tidy_word(b: &mut [u32], from: u32, end: u32)
    requires { Running b.old × HeldBelow (heap b.old) from × (1 ≤ from) × (from ≤ end) × (end ≤ room b.old + 1) }
    ensures { Tidied b.old b.new end }
{
    for n in from..end {
        tidy(b, n);
    }
}

// Every node that nothing names is emptied. The call made none below `from`, so none of those is read; nor are 32 free nodes, whose occupancy word is 0.
// The loop is a `while`, as it goes on behind each run of such words.
pub fn sweep(b: &mut [u32], from: u32)
    requires { Running b.old × (1 ≤ from) × HeldBelow (heap b.old) from }
    ensures { Swept b.old b.new }
{
    let m = b[0] / 32;
    let mut i = from;
    let mut w = (from - 1) / 32;
    while w < m {
        let next = 32 * w + 33;
        let word = b[(17 + w) as usize];
        w += 1;
        if word != 0 {
            tidy_word(b, i, next);
            i = next;
        } else {
            w = pass::<ALL_FREE>(b, w, m);
            i = 32 * w + 1;
        }
    }
}

// Version v becomes the tree below n; its old root and what was made but is not used are given up.
pub fn finish(b: &mut [u32], v: u32, n: u32, from: u32)
    requires { Running b.old × (v < 16) × Named (heap b.old) n × (1 ≤ from) × HeldBelow (heap b.old) from }
    ensures { Finished b.old b.new v n }
{
    let old = root(b, v);
    raise(b, n);
    set_root(b, v, n);
    give_up(b, old);
    sweep(b, from);
}

// The end of an edit: version v takes what was made, or what was made is given up again.
pub fn settle(b: &mut [u32], v: u32, from: u32, made: Option<u32>) -> Result<(), Refusal>
    requires { Running b.old × (v < 16) × Stands (heap b.old) made × (1 ≤ from) × HeldBelow (heap b.old) from }
    ensures { Settled b.old b.new v made (code result) }
{
    let Some(n) = made else {
        sweep(b, from);
        return Err(Refusal::NoRoom);
    };
    finish(b, v, n, from);
    Ok(())
}
