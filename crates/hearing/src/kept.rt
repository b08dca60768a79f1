// What the programs keep between two bytes.
ghost use Rattle.std.specs.Prelude.{◌≡◌, ◌≤◌, false};

// The bytes that are kept of a line, `len` of them, and whether a batch has begun. Block and inbox stay the caller's, and go beside it:
// slices, as the calls of the link take them, with their lengths as facts.
#[derive(Clone, Copy)]
pub struct Progress {
    pub line: [u8; 36],
    pub len: usize,
    pub begun: bool,
    ghost short: { len ≤ 36 },
}

impl Progress {
    pub(crate) fn new() -> Progress
        ensures { (result.len ≡ 0) × (result.begun ≡ false) }
    {
        Progress {
            line: [0; 36],
            len: 0,
            begun: false,
        }
    }
}
