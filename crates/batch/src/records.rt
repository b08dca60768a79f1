// The same call over a slice of records.
ghost use Rattle.std.specs.Prelude.{◌≡◌};
ghost use Rattle.model.specs.Batch.{records_from, Batch};
ghost use Rattle.answers.specs.Numbers.{code};
ghost use Rattle.batch.specs.Words.{records_of, put_record, flat};

use crate::batch_words;
use answers::Refusal;
use table::checks::admit;

// One edit: kind 1 puts, kind 2 removes. The value of a remove is not read. The kind is a number, since a record of any other is taken and refused.
#[repr(C)]
#[derive(Clone, Copy)]
pub struct Edit {
    pub kind: u32,
    pub key: u32,
    pub value: u32,
}

// Record i at its three words; nothing past the 512th.
fn put_record(words: &mut [u32; 1536], i: usize, e: Edit)
    ensures { words.new ≡ put_record words.old i e }
{
    if i < 512 {
        let at = 3 * i;
        words[at] = e.kind;
        words[at + 1] = e.key;
        words[at + 2] = e.value;
    }
}

// The records as words, as far as a batch goes.
fn words_of(edits: &[Edit], words: &mut [u32; 1536])
    ensures { words.new ≡ flat edits.now 0 words.old }
{
    for (i, edit) in edits.iter().enumerate() {
        put_record(words, i, *edit);
    }
}

// A batch of the first n records that the words hold; too many are none.
fn batch_of(b: &mut [u32], dst: u32, src: u32, words: &[u32; 1536], n: usize) -> Result<(), Refusal>
    ensures { Batch b.old b.new dst src (records_from words.now 0 n) (code result) }
{
    if 512 < n {
        admit(b, &[dst, src])?;
        return Err(Refusal::Edit);
    }
    batch_words(b, dst, src, &words[..3 * n])
}

// Version dst becomes version src after the edits of the records.
pub fn batch(b: &mut [u32], dst: u32, src: u32, edits: &[Edit]) -> Result<(), Refusal>
    ensures { Batch b.old b.new dst src (records_of edits.now) (code result) }
{
    let mut words = [0u32; 1536];
    words_of(edits, &mut words);
    batch_of(b, dst, src, &words, edits.len())
}
