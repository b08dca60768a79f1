// Replays a stored sample of the original's answers, so that a check without Rust compares the table with the original.
// `oracle/sample 1192` drew the 800 calls (stdin), did them on the original Rust maps and wrote down what those answered (stdout).
// A call is six numbers: call, destination, left, right, key or rule, value or cancel, with 0 for what it does not have.
// An answer is the call's name and: a value or a dash; a size; a listing's rows, key:left:right with a dash for no right;
// and after an edit the destination's tree as the original has it, key:value:size, top first and left before right.
// What agrees: answers, shapes and listings. Six versions of at most 48 keys have room at N = 2,016, so nothing is refused.
#![tactic(auto)]

mod calls;
mod lines;
mod trees;

ghost use Rattle.std.specs.Prelude.{◌≤◌, length};

use calls::perform;
use lines::{Fields, Unfit};
use std::io;
use std::io::Read;

// Does the calls of a text, up to the first byte that fits no line.
fn replay(rt: &impl Print, b: &mut [u32], text: &[u8]) -> io::Result<()> {
    let mut fields = Fields::new();
    for byte in text {
        match fields.take(*byte) {
            Ok(Some(call)) => perform(rt, b, call)?,
            Ok(None) => {}
            Err(Unfit) => return Ok(()),
        }
    }
    Ok(())
}

// Fills the buffer from its start, up to the end of the input or a read that fails: how many bytes there are. A `while`, since the reads say how far it has come.
fn read_full<R: Read>(input: &mut R, buffer: &mut [u8]) -> usize
    ensures { result ≤ length buffer.new }
{
    let mut done = 0usize;
    while done < buffer.len() {
        match input.read(&mut buffer[done..]) {
            Ok(0) | Err(_) => return done,
            Ok(n) => done += n,
        }
    }
    done
}

// A sample longer than the buffer would be cut, and the comparison would show it.
fn main(rt: HostRuntime) -> io::Result<()> {
    let mut b = [0u32; 16208];
    let _ = table::fresh(&mut b, 2016);
    let mut input = [0u8; 65536];
    let n = read_full(&mut rt.stdin(), &mut input);
    replay(&rt, &mut b, &input[..n])
}
