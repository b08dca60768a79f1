// The receiving program: the lines on standard input are heard into version 0 of an empty block; its entries are printed, then how many frames are missing.
#![tactic(auto)]

ghost use Rattle.std.specs.Prelude.{◌≡◌, ◌+◌, ◌*◌, ◌≤◌, ◌++◌, length, take};
ghost use Rattle.model.specs.Tree.{entries};
ghost use Rattle.model.specs.Heap.{Named, Linked, size_at, tree};
ghost use Rattle.model.specs.Block.{heap, room, Shaped, SoundBlock};
ghost use Rattle.model.specs.Text.{entry_line, entry_lines};
ghost use Rattle.model.specs.Inbox.{SoundInbox};
ghost use Rattle.receive.specs.Text.{text_of, Reports};

use block::{read, root};
use frame::put_hex;
use hearing::hear_input;
use inbox::question;
use std::io;
use std::io::{Read, Write};

const NEWLINE: u8 = 10;

// Bytes from `at` on: an entry, key then value, 16 digits and a newline. The place goes beside the slice, as the contract says what stands before.
fn put_entry(out: &mut [u8], at: usize, key: u32, value: u32)
    requires { at + 17 ≤ length out.old }
    ensures { take (at + 17) out.new ≡ take at out.old ++ entry_line (key, value) }
{
    put_hex(out, at, 8, key);
    put_hex(out, at + 8, 8, value);
    out[at + 16] = NEWLINE;
}

// Bytes from `at` on: the entries of the tree below n, ascending. Where the next byte goes.
fn put_entries(b: &[u32], n: u32, out: &mut [u8], at: usize) -> usize
    requires { Shaped b.now × Linked (heap b.now) × Named (heap b.now) n × (at + 17 * size_at (heap b.now) n ≤ length out.old) }
    ensures { (result ≡ at + 17 * size_at (heap b.now) n) × (take result out.new ≡ take at out.old ++ entry_lines (entries (tree (heap b.now) n))) }
{
    if n == 0 {
        return at;
    }
    let node = read(b, n);
    let middle = put_entries(b, node.left, out, at);
    put_entry(out, middle, node.key, node.value);
    put_entries(b, node.right, out, middle + 17)
}

// The text: the entries of version 0, then how many lines are missing. How many bytes it has: a version has at most 2,016 entries.
fn write_text(b: &[u32], x: &[u32], out: &mut [u8]) -> usize
    requires { SoundBlock b.now × (room b.now ≡ 2016) × SoundInbox x.now × (length out.old ≡ 34281) }
    ensures { (result ≤ 34281) × (take result out.new ≡ text_of b.now x.now) }
{
    let at = put_entries(b, root(b, 0), out, 0);
    put_hex(out, at, 8, question(x).unwrap());
    out[at + 8] = NEWLINE;
    at + 9
}

// All that the program does but for the write at its end: from a fresh block and an inbox that has heard nothing, the text after the lines on its input.
fn report<R: Read>(input: &mut R, b: &mut [u32], x: &mut [u32], out: &mut [u8]) -> usize
    requires { (length b.old ≡ 16208) × (length x.old ≡ 130) × (length out.old ≡ 34281) }
    ensures { (result ≤ 34281) × Reports (take result out.new) }
{
    hear_input(input, b, x);
    write_text(b, x, out)
}

fn main(rt: HostRuntime) -> io::Result<()> {
    let mut b = [0u32; 16208];
    let mut x = [0u32; 130];
    let mut out = [0u8; 34281];
    let n = report(&mut rt.stdin(), &mut b, &mut x, &mut out);
    rt.stdout().write_all(&out[0..n])
}
