// Runs of occupancy words that are all the same: all ones where every node is occupied, 0 where every one is free.
ghost use Rattle.std.specs.Prelude.{◌≡◌, true, ◌+◌, ◌-◌, ◌/◌, ◌≤◌};
ghost use Rattle.model.specs.Block.{room, Shaped};
ghost use Rattle.block.specs.Words.{WordsAre};

pub const ALL_TAKEN: u32 = u32::MAX;

pub const ALL_FREE: u32 = 0;

// Whether the eight occupancy words from w on are all WORD. One `|` a word and no test: of that LLVM makes vectors.
fn eight_are<const WORD: u32>(b: &[u32], w: u32) -> bool
    requires { Shaped b.now × (w + 8 ≤ room b.now / 32) }
    ensures { result ≡ true → WordsAre b.now w 8 WORD }
{
    let k = (17 + w) as usize;
    let mut other = 0;
    for word in &b[k..k + 8] {
        other |= word ^ WORD;
    }
    other == 0
}

// Goes on from a word past some that are all WORD, eight at a time: a search passes over many where much is occupied, a sweep where little is.
// A `while`, since where it stops is the answer.
pub fn pass<const WORD: u32>(b: &[u32], from: u32, m: u32) -> u32
    requires { Shaped b.now × (m ≡ room b.now / 32) × (from ≤ m) }
    ensures { (from ≤ result) × (result ≤ m) × WordsAre b.now from (result - from) WORD }
{
    let mut w = from;
    while w + 8 <= m && eight_are::<WORD>(b, w) {
        w += 8;
    }
    w
}
