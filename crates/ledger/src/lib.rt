// Accounts above the table: three totals of 64 bits each, topped-up, spent and free; open calls stand in a version of the block and nowhere else.
#![tactic(auto)]

ghost use Rattle.std.specs.Prelude.{◌≡◌, ◌+◌};
ghost use Rattle.model.specs.Tells.{Tells};
ghost use Rattle.ledger.specs.Ledger.{Formed, Known, Fit, Fresh, TopUp, Reserve, Settle, Release, Account};
ghost use Rattle.ledger.specs.Parts.{code, act, totals_of, Asks};

use answers::Refusal;
use table::{insert, lookup, remove};

pub mod faults;

use faults::Fault;

// An account's totals.
#[derive(Clone, Copy)]
pub struct Totals {
    pub topped: u64,
    pub spent: u64,
    pub free: u64,
}

// Whether the ledger is three words for each of 1 to 256 accounts.
fn formed(ledger: &[u64]) -> bool
    ensures { Tells result (Formed ledger.now) }
{
    let n = ledger.len();
    3 <= n && n <= 768 && n % 3 == 0
}

// The ledger, then the account.
fn known(ledger: &[u64], account: u32) -> Result<(), Fault>
    ensures { Known ledger.now account (λ n. code result ≡ n) (code result ≡ 0) }
{
    if !formed(ledger) {
        return Err(Fault::Accounts);
    }
    if ledger.len() / 3 <= account as usize {
        return Err(Fault::Account);
    }
    Ok(())
}

// Whether two sums fit 64 bits.
fn fit(x: u64, y: u64, z: u64, w: u64) -> bool
    ensures { Tells result (Fit (x + y) (z + w)) }
{
    y <= u64::MAX - x && w <= u64::MAX - z
}

// The checks that an operation on a call begins with: the ledger, the call's account, and the table's lookup. What it finds is the answer.
fn ask(ledger: &[u64], block: &[u32], version: u32, call: u32) -> Result<Option<u32>, Fault>
    ensures { Asks ledger.now block.now version call result }
{
    known(ledger, call / 16777216)?;
    lookup(block, version, call).map_err(Fault::Lookup)
}

// A ledger of n accounts with nothing in them.
pub fn fresh(ledger: &mut [u64], n: u32) -> Result<(), Fault>
    ensures { Fresh ledger.old ledger.new n (code result) }
{
    if n < 1 || 256 < n || ledger.len() != 3 * n as usize {
        return Err(Fault::Accounts);
    }
    ledger.fill(0);
    Ok(())
}

// An account's three totals.
pub fn account(ledger: &[u64], account: u32) -> Result<Totals, Fault>
    ensures { Account ledger.now account (totals_of result) }
{
    known(ledger, account)?;
    let at = 3 * account as usize;
    Ok(Totals {
        topped: ledger[at],
        spent: ledger[at + 1],
        free: ledger[at + 2],
    })
}

// Minutes that were paid for: topped-up and free.
pub fn top_up(ledger: &mut [u64], account: u32, minutes: u64) -> Result<(), Fault>
    ensures { TopUp ledger.old ledger.new account minutes (code result) }
{
    known(ledger, account)?;
    let at = 3 * account as usize;
    let topped = ledger[at];
    let free = ledger[at + 2];
    if !fit(topped, minutes, free, minutes) {
        return Err(Fault::Total);
    }
    ledger[at] = topped + minutes;
    ledger[at + 2] = free + minutes;
    Ok(())
}

// A call opens: its minutes go from free into the version.
pub fn reserve(
    ledger: &mut [u64],
    block: &mut [u32],
    version: u32,
    call: u32,
    minutes: u32,
) -> Result<(), Fault>
    ensures { Reserve (act ledger.old block.old ledger.new block.new result) version call minutes }
{
    let None = ask(ledger, block, version, call)? else {
        return Err(Fault::Open);
    };
    let at = 3 * (call / 16777216) as usize;
    let free = ledger[at + 2];
    if free < u64::from(minutes) {
        return Err(Fault::Free);
    }
    insert(block, version, version, call, minutes).map_err(Fault::Edit)?;
    ledger[at + 2] = free - u64::from(minutes);
    Ok(())
}

// A call ends: what it used is spent and the rest is free again.
pub fn settle(
    ledger: &mut [u64],
    block: &mut [u32],
    version: u32,
    call: u32,
    used: u32,
) -> Result<(), Fault>
    ensures { Settle (act ledger.old block.old ledger.new block.new result) version call used }
{
    let Some(held) = ask(ledger, block, version, call)? else {
        return Err(Fault::NotOpen);
    };
    if held < used {
        return Err(Fault::Above);
    }
    let at = 3 * (call / 16777216) as usize;
    let spent = ledger[at + 1];
    let free = ledger[at + 2];
    let more = u64::from(used);
    let back = u64::from(held - used);
    if !fit(spent, more, free, back) {
        return Err(Fault::Total);
    }
    remove(block, version, version, call).map_err(Fault::Edit)?;
    ledger[at + 1] = spent + more;
    ledger[at + 2] = free + back;
    Ok(())
}

// A call is dropped: nothing is used.
pub fn release(ledger: &mut [u64], block: &mut [u32], version: u32, call: u32) -> Result<(), Fault>
    ensures { Release (act ledger.old block.old ledger.new block.new result) version call }
{
    settle(ledger, block, version, call, 0)
}
