// The changes from one version to another, collected in words, and the frame of each.
ghost use Rattle.std.specs.Prelude.{◌≡◌, ◌*◌, ◌<◌, ◌≤◌, length};
ghost use Rattle.model.specs.Heap.{version};
ghost use Rattle.model.specs.Block.{heap, SoundBlock};
ghost use Rattle.frame.specs.Fields.{fields_of};
ghost use Rattle.lists.specs.Changes.{Collects, at_least_one, frame_in};

use answers::Refusal;
use block::root;
use frame::Frame;
use walk::{Wanted, walk};

// How many changes are puts, and how many there are in all. Their words are lent beside it: an array of fixed length in the struct would be copied with it.
#[derive(Clone, Copy)]
pub struct Changes {
    pub puts: u32,
    pub count: u32,
}

// The changes from version `from` to version `to`, two words each: puts, then removes.
// They are at most N, so both walks find room for all of theirs.
pub fn collect(b: &[u32], from: u32, to: u32, words: &mut [u32]) -> Result<Changes, Refusal>
    requires { SoundBlock b.now × (from < 16) × (to < 16) × (length words.old ≡ 8192) }
    ensures { Collects (version (heap b.now) from) (version (heap b.now) to) words.new result }
{
    let x = root(b, from);
    let y = root(b, to);
    let puts = walk(b, y, x, Wanted::Puts, 0, words, false)?;
    let at = 2 * puts as usize;
    let removes = walk(b, x, y, Wanted::Removes, 0, &mut words[at..], false)?;
    Ok(Changes {
        puts,
        count: puts + removes,
    })
}

impl Changes {
    // How many frames carry them: "nothing changed" is a frame too.
    pub fn frames(self) -> u32
        ensures { result ≡ at_least_one self.count }
    {
        self.count.max(1)
    }

    // The frame of change i, from the words that hold the changes. A call of its own, as its 1 becomes constant data where it stands in a loop.
    #[inline(never)]
    pub fn frame_at(self, words: &[u32], batch: u32, i: u32) -> Frame
        requires { (2 * self.count ≤ length words.now) × (self.count ≤ 4096) × (i < at_least_one self.count) }
        ensures { fields_of result ≡ frame_in batch self.puts self.count words.now i }
    {
        // Nothing has changed. Its i is 0, and is named so that the frame is not copied from constant data.
        if self.count == 0 {
            return Frame {
                batch,
                index: i,
                count: 1,
                kind: 0,
                key: i,
                value: 0,
            };
        }
        let at = 2 * i as usize;
        if i < self.puts {
            return Frame {
                batch,
                index: i,
                count: self.count,
                kind: 1,
                key: words[at],
                value: words[at + 1],
            };
        }
        Frame {
            batch,
            index: i,
            count: self.count,
            kind: 2,
            key: words[at],
            value: 0,
        }
    }
}
