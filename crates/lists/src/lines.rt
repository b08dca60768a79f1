// The lines that carry one version to another, 35 bytes each.
ghost use Rattle.std.specs.Prelude.{ℕ, ◌<◌, ◌≤◌, List, map};
ghost use Rattle.model.specs.Frame.{line};
ghost use Rattle.model.specs.Frame as model;
ghost use Rattle.answers.specs.Answers.{report_of};
ghost use Rattle.model.specs.Lists.{Lists, framed};
ghost use Rattle.lists.specs.Reports.{Wrote};
ghost use Rattle.lists.specs.Changes.{Gives};

use crate::changes::collect;
use answers::{Refusal, Report, shown};
use frame::Frame;
use table::checks::admit;

// The lines of `total` frames from index start on, while 35 bytes remain: how many bytes are written.
pub(crate) fn write_lines<F: Fn(u32) -> Frame>(
    frame: F,
    total: u32,
    start: u32,
    out: &mut [u8],
) -> u32
    requires few { total ≤ 4096 }
    requires gives { (i : ℕ) → i < total → F.pre frame i }
    ensures { (fs : List model.Frame) → Gives (F.post frame) total fs → Wrote (map line fs) start out.old result out.new }
{
    let k = shown(total, start, out.len() / 35);
    for i in 0..k {
        frame::write(out, 35 * i as usize, frame(start + i));
    }
    35 * k
}

// Both walks are whole before the first line is written: a refusal leaves the output as it was.
// What is written, cut every 35 bytes and parsed, is the delta's frames (`frames-read`, crate model, proofs/Reading).
pub fn frames(
    b: &[u32],
    from: u32,
    to: u32,
    batch: u32,
    start: u32,
    out: &mut [u8],
) -> Result<Report, Refusal>
    ensures { Lists b.now out.old out.new start (framed b.now from to batch) (report_of result) }
{
    admit(b, &[from, to])?;
    let mut words = [0u32; 8192];
    let changes = collect(b, from, to, &mut words)?;
    let total = changes.frames();
    let frame = |i| changes.frame_at(&words, batch, i);
    Ok(Report {
        written: write_lines(frame, total, start, out),
        total,
    })
}
