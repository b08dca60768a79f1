// The calls that only read: lookup, and the listing against an empty table.
ghost use Rattle.std.specs.Prelude.{◌≡◌, ◌++◌, map, ◌+◌, ◌-◌, ◌*◌, ◌≤◌, length, take, drop};
ghost use Rattle.model.specs.Kiosk.{count, pairs, entry_words, SoundKiosk, Lookup, Lists};
ghost use Rattle.model.specs.Lists.{laid};
ghost use Rattle.answers.specs.Answers.{found_of, report_of};

use crate::slice::{check, place, value_at};
use answers::{Refusal, Report, shown};

// The value under a key.
pub fn lookup(k: &[u32], key: u32) -> Result<Option<u32>, Refusal>
    ensures { Lookup k.now key (found_of result) }
{
    check(k)?;
    Ok(value_at(k, key, place(k, key)))
}

// Four words: key, value, 0, 0. The place goes beside the slice, as the contract says what stands before and behind.
fn put_entry(out: &mut [u32], at: usize, key: u32, value: u32)
    requires { at + 4 ≤ length out.old }
    ensures { out.new ≡ take at out.old ++ (entry_words (key, value) ++ drop (at + 4) out.old) }
{
    out[at..at + 4].copy_from_slice(&[key, value, 0, 0]);
}

// The n entries from `start` on to the front of `out`.
fn write(k: &[u32], start: usize, n: usize, out: &mut [u32])
    requires { SoundKiosk k.now × (n ≤ count k.now - start) × (4 * n ≤ length out.old) }
    ensures { out.new ≡ laid (take n (drop start (map entry_words (pairs k.now)))) ++ drop (4 * n) out.old }
{
    for j in 0..n {
        let i = start + j;
        put_entry(out, 4 * j, k[1 + 2 * i], k[2 + 2 * i]);
    }
}

// The entries from the start index on, while four words remain.
pub fn list(k: &[u32], start: u32, out: &mut [u32]) -> Result<Report, Refusal>
    ensures { Lists k.now out.old out.new start (report_of result) }
{
    check(k)?;
    let total = k[0];
    let n = shown(total, start, out.len() / 4);
    write(k, start as usize, n as usize, out);
    Ok(Report {
        written: 4 * n,
        total,
    })
}
