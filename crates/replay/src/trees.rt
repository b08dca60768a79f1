// Prints numbers and trees.
ghost use Rattle.std.specs.Prelude.{◌<◌};

use std::io;

// A value, or a dash for none.
pub fn or_dash(rt: &impl Print, value: Option<u32>) -> io::Result<()> {
    match value {
        Some(value) => rt.print(value),
        None => rt.print("-"),
    }
}

// The word at a place; 0 past the end.
fn word(words: &[u32], at: usize) -> u32 {
    words.get(at).copied().unwrap_or(0)
}

// Word j of node n: in a block of N = 2,016 the words of node 1 start at 80. Read here, since the reading of `block` asks for a proof that the block has its shape.
fn node_word(b: &[u32], n: u32, j: usize) -> u32
    requires { j < 8 }
{
    word(b, 72 + 8 * (n as usize) + j)
}

// Key, value and size.
fn node(rt: &impl Print, b: &[u32], n: u32) -> io::Result<()> {
    let key = node_word(b, n, 0);
    let value = node_word(b, n, 1);
    let size = node_word(b, n, 4);
    print!(rt; " {key}:{value}:{size}")
}

// The tree below n, top first and left before right: with keys in order this fixes the shape.
fn below(rt: &impl Print, b: &[u32], n: u32, levels: u32) -> io::Result<()> {
    if n == 0 || levels == 0 {
        return Ok(());
    }
    node(rt, b, n)?;
    below(rt, b, node_word(b, n, 2), levels - 1)?;
    below(rt, b, node_word(b, n, 3), levels - 1)
}

// A version's tree. No tree of the sample has 64 levels; what lies deeper would be missing from the print.
pub fn tree(rt: &impl Print, b: &[u32], version: u32) -> io::Result<()> {
    below(rt, b, word(b, 1 + version as usize), 64)
}
