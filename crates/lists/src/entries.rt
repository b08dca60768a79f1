// The listing of one version against another, four words an entry.
ghost use Rattle.std.specs.Prelude.{[], ◌∷◌};
ghost use Rattle.answers.specs.Answers.{report_of};
ghost use Rattle.model.specs.Lists.{Lists, listed};
ghost use Rattle.lists.specs.Reports.{Shows};

use answers::{Refusal, Report, shown};
use block::root;
use table::checks::admit;
use walk::{Wanted, walk};

// The whole of the output is in this contract: words behind the part stay, and a refusal leaves all of them.
// A walk may be given up half-way, so it writes to words of its own: a listing has at most N entries, 4,096.
pub fn list(
    b: &[u32],
    left: u32,
    right: u32,
    start: u32,
    out: &mut [u32],
) -> Result<Report, Refusal>
    ensures { Lists b.now out.old out.new start (listed b.now left right) (report_of result) }
{
    admit(b, &[left, right])?;
    let l = root(b, left);
    let r = root(b, right);
    let mut words = [0u32; 16384];
    let total = walk(b, l, r, Wanted::Rows, start, &mut words, false)?;
    let written = 4 * shown(total, start, out.len() / 4);
    let n = written as usize;
    out[..n].copy_from_slice(&words[..n]);
    Ok(Report { written, total })
}

// The leading part of the output that holds the entries; number and total go to two lent numbers, as docs/DECISIONS.md has it of this form.
// The contract of a function that returns a part of `out` cannot name the words behind that part. `list` has them in its own, and this is `list`.
pub fn listing<'a, 'b>(
    b: &'b [u32],
    left: u32,
    right: u32,
    start: u32,
    out: &'a mut [u32],
    number: &'b mut u32,
    total: &'b mut u32,
) -> &'a mut [u32]
    ensures { Shows b.now out.old start (listed b.now left right) result.now number.new total.new }
{
    *number = 0;
    *total = 0;
    let mut written = 0;
    match list(b, left, right, start, &mut *out) {
        Ok(report) => {
            *total = report.total;
            written = report.written as usize;
        }
        Err(refusal) => *number = refusal.number(),
    }
    &mut out[..written]
}
