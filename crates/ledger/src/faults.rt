// Why an operation is refused.
ghost use Rattle.std.specs.Prelude.{◌≡◌};
ghost use Rattle.ledger.specs.Faults.{number, table_of};

use answers::Refusal;

/// Why an operation is refused. Of a refusal of the table it has the table's own.
#[derive(Clone, Copy, Debug, PartialEq, Eq)]
pub enum Fault {
    Accounts,
    Account,
    Lookup(Refusal),
    Open,
    NotOpen,
    Free,
    Above,
    Total,
    Edit(Refusal),
}

impl Fault {
    pub fn number(self) -> u32
        ensures { result ≡ number self }
    {
        match self {
            Fault::Accounts => 21,
            Fault::Account => 22,
            Fault::Lookup(_) => 23,
            Fault::Open => 24,
            Fault::NotOpen => 25,
            Fault::Free => 26,
            Fault::Above => 27,
            Fault::Total => 28,
            Fault::Edit(_) => 29,
        }
    }

    // The table's number where the table refused, else 0.
    pub fn table(self) -> u32
        ensures { result ≡ table_of self }
    {
        match self {
            Fault::Lookup(refusal) | Fault::Edit(refusal) => refusal.number(),
            _ => 0,
        }
    }
}
