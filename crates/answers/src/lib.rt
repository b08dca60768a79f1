// What calls answer: why one is refused, and how much one that lists has written.
#![tactic(auto)]

ghost use Rattle.std.specs.Prelude.{◌≡◌, ◌-◌, min};
ghost use Rattle.answers.specs.Numbers.{number, code, fault_number, fault_place, refused};

/// Why a call is refused. The number of each is what a C host sees.
#[derive(Clone, Copy, Debug, PartialEq, Eq)]
pub enum Refusal {
    Shape,
    Damaged,
    Version,
    Rule,
    NoRoom,
    TooDeep,
    Frame,
    Batch,
    Count,
    Kind,
    Range,
    Zero,
    Sum,
    Request,
    Edit,
}

impl Refusal {
    // The numbers leave out 10, a bad digit's. They are counted, since numbers written beside the variants would be read from constant data.
    pub fn number(self) -> u32
        ensures { result ≡ number self }
    {
        let before = self as u32;
        if before < 9 { before + 1 } else { before + 2 }
    }
}

/// The number of a call that answers nothing else: 0 for done.
pub fn code(answer: Result<(), Refusal>) -> u32
    ensures { result ≡ code answer }
{
    match answer {
        Ok(()) => 0,
        Err(refusal) => refusal.number(),
    }
}

/// What is wrong with a line, or why it is refused: a byte of its 34 that is no digit is told by its place.
#[derive(Clone, Copy, Debug, PartialEq, Eq)]
pub enum Fault {
    Digit(u32),
    Refused(Refusal),
}

impl From<Refusal> for Fault {
    ghost from_gives = { λ r f. f ≡ refused r };

    fn from(refusal: Refusal) -> Fault {
        Fault::Refused(refusal)
    }
}

impl Fault {
    pub fn number(self) -> u32
        ensures { result ≡ fault_number self }
    {
        match self {
            Fault::Digit(_) => 10,
            Fault::Refused(refusal) => refusal.number(),
        }
    }

    pub fn place(self) -> u32
        ensures { result ≡ fault_place self }
    {
        match self {
            Fault::Digit(place) => place,
            Fault::Refused(_) => 0,
        }
    }
}

/// How many words or bytes a call has written, and how many pieces there are in all.
#[derive(Clone, Copy, Debug, PartialEq, Eq)]
pub struct Report {
    pub written: u32,
    pub total: u32,
}

/// How many of `total` pieces are written from `start` on, with room for `room` of them.
/// Start is compared with the total first: nothing is multiplied by it.
pub fn shown(total: u32, start: u32, room: usize) -> u32
    ensures { result ≡ min room (total - start) }
{
    if total <= start {
        return 0;
    }
    let rest = total - start;
    if room < rest as usize {
        return room as u32;
    }
    rest
}
