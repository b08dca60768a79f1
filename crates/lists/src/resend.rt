// What the primary sends again: the lines that a request asks for.
ghost use Rattle.answers.specs.Answers.{report_of};
ghost use Rattle.model.specs.Request.{Resend};

use crate::changes::collect;
use crate::lines::write_lines;
use answers::{Refusal, Report};
use requests::reading::{choose, of_batch, well_formed};
use table::checks::admit;

// The request is looked at whole for its form, then for its batch; then both walks are made, whatever is asked.
pub fn resend(
    b: &[u32],
    from: u32,
    to: u32,
    batch: u32,
    request: &[u8],
    start: u32,
    out: &mut [u8],
) -> Result<Report, Refusal>
    ensures { Resend (record { block = b.now; from = from; to = to; batch = batch }) request.now out.old out.new start (report_of result) }
{
    admit(b, &[from, to])?;
    if !well_formed(request) {
        return Err(Refusal::Request);
    }
    let lines = request.len() / 35;
    if !of_batch(request, lines, batch) {
        return Err(Refusal::Batch);
    }
    let mut words = [0u32; 8192];
    let changes = collect(b, from, to, &mut words)?;
    let mut chosen = [0u32; 4096];
    let total = choose(request, lines, changes.frames(), &mut chosen);
    let frame = |i| changes.frame_at(&words, batch, chosen[i as usize]);
    Ok(Report {
        written: write_lines(frame, total, start, out),
        total,
    })
}
