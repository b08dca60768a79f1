// Runs of zeros. One `|` a word and no test: of that LLVM makes vectors.
// Words and half words have a function each: one for both takes a trait of two methods and an impl for each, which is longer.
ghost use Rattle.model.specs.Tells.{Tells};
ghost use Rattle.area.specs.Notes.{AllZero};

/// Whether the words are all 0.
pub fn zeros(words: &[u32]) -> bool
    ensures { Tells result (AllZero words.now) }
{
    let mut any = 0;
    for word in words {
        any |= *word;
    }
    any == 0
}

/// The same of half words.
pub fn zeros_half(halves: &[u16]) -> bool
    ensures { Tells result (AllZero halves.now) }
{
    let mut any = 0;
    for half in halves {
        any |= *half;
    }
    any == 0
}
