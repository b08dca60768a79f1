// A batch of edits in one call: one audit, and all edits take effect or none.
#![tactic(auto)]

pub mod records;

ghost use Rattle.std.specs.Prelude.{◌*◌, ◌≤◌, [], ◌∷◌, length};
ghost use Rattle.answers.specs.Numbers.{code};
ghost use Rattle.model.specs.Tells.{Tells};
ghost use Rattle.model.specs.Heap.{Named, size_at, tree};
ghost use Rattle.model.specs.Block.{heap};
ghost use Rattle.model.specs.Moves.{Holding};
ghost use Rattle.model.specs.Batch.{Legal, NoZero, batch_rule, records_from, BatchWords};
ghost use Rattle.block.specs.Outcome.{Outcome};
ghost use Rattle.block.specs.Low.{Low};
ghost use Rattle.batch.specs.Words.{Whole};

use answers::Refusal;
use block::ends::settle;
use block::{makes_from, root};
use table::checks::admit;

// Whether the words are whole records, 512 at the most.
fn whole(words: &[u32]) -> bool
    ensures { Tells result (Whole words.now) }
{
    words.len() % 3 == 0 && words.len() <= 1536
}

// Whether each of n records puts or removes. Records are words that the host lends, so a kind is a number here; their number goes beside them, as contracts read the first n (`records_from`).
fn known(words: &[u32], n: usize) -> bool
    requires { (n ≤ 512) × (3 * n ≤ length words.now) }
    ensures { Tells result (Legal (records_from words.now 0 n)) }
{
    for i in 0..n {
        let kind = words[3 * i];
        if kind == 0 || 2 < kind {
            return false;
        }
    }
    true
}

// Whether none of n records puts the value 0. The value of a remove is not read.
fn no_zero(words: &[u32], n: usize) -> bool
    requires { (n ≤ 512) × (3 * n ≤ length words.now) }
    ensures { Tells result (NoZero (records_from words.now 0 n)) }
{
    for i in 0..n {
        if words[3 * i] == 1 && words[3 * i + 2] == 0 {
            return false;
        }
    }
    true
}

// The edits of n records in order, from the tree below start on: each takes apart what the one before it made.
fn run(b: &mut [u32], low: &mut u32, start: u32, words: &[u32], n: usize) -> Option<u32>
    requires { Holding b.old (start ∷ []) × Named (heap b.old) start × (size_at (heap b.old) start ≤ 4096) × (n ≤ 512) × (3 * n ≤ length words.now) × Low b.old low.old }
    ensures { Outcome b.old b.new (start ∷ []) result (batch_rule (records_from words.now 0 n) (tree (heap b.old) start)) × Low b.new low.new }
{
    let mut top = start;
    for i in 0..n {
        let at = 3 * i;
        top = tree::edit(b, low, top, words[at], words[at + 1], words[at + 2])?;
    }
    Some(top)
}

// Version dst becomes version src after the edits of the words, three a record: kind, key, value.
pub fn batch_words(b: &mut [u32], dst: u32, src: u32, words: &[u32]) -> Result<(), Refusal>
    ensures { BatchWords b.old b.new dst src words.now (code result) }
{
    admit(b, &[dst, src])?;
    let count = words.len() / 3;
    if !whole(words) || !known(words, count) {
        return Err(Refusal::Edit);
    }
    if !no_zero(words, count) {
        return Err(Refusal::Zero);
    }
    let from = makes_from(b);
    let mut low = from;
    let source = root(b, src);
    let made = run(b, &mut low, source, words, count);
    settle(b, dst, from, made)
}
