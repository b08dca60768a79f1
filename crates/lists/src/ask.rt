// What the standby asks for: the lines of a request, 35 bytes each.
ghost use Rattle.std.specs.Prelude.{◌≡◌, map, length};
ghost use Rattle.answers.specs.Answers.{report_of};
ghost use Rattle.model.specs.Frame.{line};
ghost use Rattle.model.specs.Inbox.{batch_of, SoundInbox};
ghost use Rattle.model.specs.Request.{placed, Ask};
ghost use Rattle.requests.specs.Runs.{runs_from};
ghost use Rattle.lists.specs.Reports.{Wrote};

use crate::lines::write_lines;
use answers::{Refusal, Report, shown};
use requests::runs::{alone, behind, run_count, run_from, run_line};

// The lines of `count` runs from index start on, while 35 bytes remain: how many bytes are written.
// A run begins behind the one before it, so no function of the index gives its frame, as `write_lines` asks.
fn write_runs(x: &[u32], count: u32, start: u32, out: &mut [u8]) -> u32
    requires { SoundInbox x.now × (count ≡ length (runs_from x.now 0)) }
    ensures { Wrote (map line (placed (batch_of x.now) count 0 (runs_from x.now 0))) start out.old result out.new }
{
    let k = shown(count, start, out.len() / 35);
    if k == 0 {
        return 0;
    }
    let mut at = behind(x, start);
    for i in 0..k {
        // There is one: start + i is below count.
        let Some(run) = run_from(x, at) else {
            return 35 * i;
        };
        let f = run_line(x[0], count, start + i, run);
        frame::write(out, 35 * i as usize, f);
        at = run.last + 1;
    }
    35 * k
}

// The runs are counted first, since every line has their number.
pub fn ask(x: &[u32], start: u32, out: &mut [u8]) -> Result<Report, Refusal>
    ensures { Ask x.now out.old out.new start (report_of result) }
{
    inbox::check(x)?;
    let count = run_count(x);
    if count == 0 {
        let only = alone(x);
        return Ok(Report {
            written: write_lines(|_| only, 1, start, out),
            total: 1,
        });
    }
    Ok(Report {
        written: write_runs(x, count, start, out),
        total: count,
    })
}
