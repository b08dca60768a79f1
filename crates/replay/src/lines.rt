// A call to a line: six decimal numbers with one blank between two of them.
ghost use Rattle.std.specs.Prelude.{◌≤◌};

// One call, with what it names.
#[derive(Clone, Copy)]
pub enum Call {
    Lookup {
        version: u32,
        key: u32,
    },
    Size {
        version: u32,
    },
    Clear {
        dest: u32,
    },
    Insert {
        dest: u32,
        source: u32,
        key: u32,
        value: u32,
    },
    Remove {
        dest: u32,
        source: u32,
        key: u32,
    },
    Copy {
        dest: u32,
        source: u32,
    },
    Union {
        dest: u32,
        left: u32,
        right: u32,
        rule: u32,
    },
    Difference {
        dest: u32,
        left: u32,
        right: u32,
        rule: u32,
        cancel: bool,
    },
    List {
        left: u32,
        right: u32,
    },
}

// A byte that no call has at its place.
#[derive(Clone, Copy)]
pub struct Unfit;

const LAST: usize = 5;

// The numbers of a line as far as it has come, and which of them the next byte stands in.
#[derive(Clone, Copy)]
pub struct Fields {
    numbers: [u32; 6],
    at: usize,
    ghost within: { at ≤ 5 },
}

impl Fields {
    pub fn new() -> Fields {
        Fields {
            numbers: [0; 6],
            at: 0,
        }
    }

    // A digit goes to the end of its number, unless that would not fit.
    fn digit(&mut self, digit: u8) -> Result<(), Unfit> {
        let longer = 10 * u64::from(self.numbers[self.at]) + u64::from(digit);
        self.numbers[self.at] = u32::try_from(longer).or(Err(Unfit))?;
        Ok(())
    }

    // Takes the next byte of a line: the call, if the line ends there.
    pub fn take(&mut self, byte: u8) -> Result<Option<Call>, Unfit> {
        match byte {
            b' ' if self.at < LAST => {
                self.at += 1;
                Ok(None)
            }
            b'\n' if self.at == LAST => {
                let call = Call::from(self.numbers);
                *self = Fields::new();
                Ok(Some(call))
            }
            b'0'..=b'9' => {
                self.digit(byte - b'0')?;
                Ok(None)
            }
            _ => Err(Unfit),
        }
    }
}

impl From<[u32; 6]> for Call {
    // A number that the call does not have is not looked at. A call that is none of the others is a difference.
    fn from(numbers: [u32; 6]) -> Call {
        let [call, dest, left, right, key, value] = numbers;
        match call {
            0 => Call::Lookup { version: left, key },
            1 => Call::Size { version: left },
            2 => Call::Clear { dest },
            3 => Call::Insert {
                dest,
                source: left,
                key,
                value,
            },
            4 => Call::Remove {
                dest,
                source: left,
                key,
            },
            5 => Call::Copy { dest, source: left },
            6 => Call::Union {
                dest,
                left,
                right,
                rule: key,
            },
            8 => Call::List { left, right },
            _ => Call::Difference {
                dest,
                left,
                right,
                rule: key,
                cancel: value == 1,
            },
        }
    }
}
