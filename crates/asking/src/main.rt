// The asking program: the lines on standard input are heard as the receiving program hears them; the request for what is then missing is written.
#![tactic(auto)]

ghost use Rattle.std.specs.Prelude.{◌≡◌, ◌≤◌, length, take};
ghost use Rattle.asking.specs.Asking.{Asks};

use hearing::hear_input;
use lists::ask::ask;
use std::io;
use std::io::{Read, Write};

// All that the program does but for the write at its end. A request has at most 2,048 lines of 35 bytes.
fn request<R: Read>(input: &mut R, b: &mut [u32], x: &mut [u32], out: &mut [u8]) -> usize
    requires { (length b.old ≡ 16208) × (length x.old ≡ 130) × (length out.old ≡ 71680) }
    ensures { (result ≤ 71680) × Asks (take result out.new) }
{
    hear_input(input, b, x);
    let report = ask(x, 0, out).unwrap();
    report.written as usize
}

fn main(rt: HostRuntime) -> io::Result<()> {
    let mut b = [0u32; 16208];
    let mut x = [0u32; 130];
    let mut out = [0u8; 71680];
    let n = request(&mut rt.stdin(), &mut b, &mut x, &mut out);
    rt.stdout().write_all(&out[0..n])
}
