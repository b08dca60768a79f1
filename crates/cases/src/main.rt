// Cases 9 to 11 of document 01 and the longest chains, run through the public calls; what is printed is compared.
#![tactic(auto)]

ghost use Rattle.std.specs.Prelude.{◌+◌, ◌≤◌, ◌<◌};

use answers::{Fault, Refusal};
use link::parse;
use lists::entries::list;
use std::io;
use table::{
    clear, copy, difference, fresh, held, held_between, insert, lookup, remove, size, union,
};

// The number that a call gave back: 0 for done.
fn number<T: Drop>(rt: &impl Print, answer: Result<T, Refusal>) -> io::Result<()> {
    let number = match answer {
        Ok(_) => 0,
        Err(refusal) => refusal.number(),
    };
    print!(rt; " {number}")
}

// What was done, and that number.
fn show<T: Drop>(rt: &impl Print, s: &str, answer: Result<T, Refusal>) -> io::Result<()> {
    rt.print(s)?;
    number(rt, answer)
}

// Keys 1 to n, ascending, into a version.
fn fill(b: &mut [u32], version: u32, n: u32) {
    for i in 1..=n {
        let _ = insert(b, version, version, i, i);
    }
}

// Beside two trees of 12, one of 1 and the chain 1, 2, 3, four of 32 nodes are free. The insert of 4 makes five, and takes one of them apart before it makes the last two.
fn exact_room(rt: &impl Print) -> io::Result<()> {
    let mut b = [0u32; 274];
    let _ = fresh(&mut b, 32);
    fill(&mut b, 1, 12);
    fill(&mut b, 2, 12);
    fill(&mut b, 3, 1);
    fill(&mut b, 0, 3);
    let mut crowded = b;
    let _ = insert(&mut crowded, 4, 4, 9, 9);
    show(rt, "case 10: exact room", insert(&mut b, 0, 0, 4, 4))?;
    show(rt, ", one fewer", insert(&mut crowded, 0, 0, 4, 4))?;
    rt.print("\n")
}

// Each of the calls in turn, on the versions that it names.
fn calls(rt: &impl Print, b: &mut [u32], v: u32, w: u32, x: u32, key: u32) -> io::Result<()> {
    number(rt, lookup(b, v, key))?;
    number(rt, size(b, v))?;
    number(rt, clear(b, v))?;
    number(rt, insert(b, v, w, key, 1))?;
    number(rt, remove(b, v, w, key))?;
    number(rt, copy(b, v, w))?;
    number(rt, union(b, v, w, x, 0))?;
    number(rt, difference(b, v, w, x, 0, false))
}

fn name_version(rt: &impl Print, v: u32) -> io::Result<()> {
    let mut b = [0u32; 274];
    let _ = fresh(&mut b, 32);
    calls(rt, &mut b, v, 0, 0, 1)?;
    rt.print(", second:")?;
    calls(rt, &mut b, 0, v, 0, 1)?;
    rt.print(", third:")?;
    calls(rt, &mut b, 0, 0, v, 1)?;
    rt.print("\n")
}

fn known_versions(rt: &impl Print) -> io::Result<()> {
    rt.print("calls: lookup, size, clear, insert, remove, copy, union, difference\n")?;
    rt.print("case 11: version 15 first:")?;
    name_version(rt, 15)?;
    rt.print("case 11: version 16 first:")?;
    name_version(rt, 16)
}

fn largest(rt: &impl Print) -> io::Result<()> {
    let mut b = [0u32; 32913];
    show(rt, "case 11: N 4096", fresh(&mut b, 4096))?;
    let mut c = [0u32; 33170];
    show(rt, ", N 4128", fresh(&mut c, 4128))?;
    rt.print("\n")
}

// A version number is looked at before a rule number.
fn known_rules(rt: &impl Print) -> io::Result<()> {
    let mut b = [0u32; 274];
    let _ = fresh(&mut b, 32);
    show(rt, "rules: union by 4", union(&mut b, 0, 0, 0, 4))?;
    show(rt, ", by 5", union(&mut b, 0, 0, 0, 5))?;
    show(rt, ", of version 16 by 5", union(&mut b, 0, 16, 0, 5))?;
    show(
        rt,
        ", difference by 4",
        difference(&mut b, 0, 0, 0, 4, false),
    )?;
    show(
        rt,
        ", by 2 cancelling",
        difference(&mut b, 0, 0, 0, 2, true),
    )?;
    rt.print("\n")
}

// What version 1 holds under key 1, after the call that made it.
fn holds(rt: &impl Print, s: &str, b: &[u32], done: Result<(), Refusal>) -> io::Result<()> {
    show(rt, s, done)?;
    match lookup(b, 1, 1) {
        Ok(Some(value)) => print!(rt; " 1:{value}"),
        _ => rt.print(" 0:0"),
    }
}

// 0 minutes are not put, whether the key is there or not, and a version number is looked at before. A block that holds them by hand is sound, and they are
// carried: node 1 has its value at word 19 and its sum at 24.
fn zeros(rt: &impl Print) -> io::Result<()> {
    let mut b = [0u32; 274];
    let _ = fresh(&mut b, 32);
    show(rt, "zeros: insert", insert(&mut b, 0, 0, 1, 0))?;
    show(rt, ", of version 16", insert(&mut b, 0, 16, 1, 0))?;
    let _ = insert(&mut b, 0, 0, 1, 7);
    show(rt, ", of a key that is there", insert(&mut b, 0, 0, 1, 0))?;
    put(&mut b, 19, 0);
    put(&mut b, 24, 0);
    let a = copy(&mut b, 1, 0);
    holds(rt, ", by hand: copy", &b, a)?;
    let a = union(&mut b, 1, 0, 2, 4);
    holds(rt, ", union", &b, a)?;
    let a = difference(&mut b, 1, 0, 2, 0, false);
    holds(rt, ", difference", &b, a)?;
    rt.print("\n")
}

fn put(b: &mut [u32], at: usize, x: u32) {
    if let Some(word) = b.get_mut(at) {
        *word = x;
    }
}

// A node of a chain from its first word on: as many minutes stand below it as nodes.
fn put_node(b: &mut [u32], at: u32, key: u32, left: u32, right: u32, size: u32) {
    let at = at as usize;
    if let Some(node) = b.get_mut(at..at + 7) {
        node.copy_from_slice(&[key, 1, left, right, size, 1, size]);
    }
}

// The node behind node i + 1 in a chain of n; 0 behind the last.
fn next(i: u32, n: u32) -> u32
    requires { (i < n) × (n ≤ 4096) }
{
    if i + 1 < n { i + 2 } else { 0 }
}

// Version 0 of N = 4,096 becomes a right chain of the keys 1 to n, one minute each, by hand; n is a multiple of 32.
fn chain(b: &mut [u32], n: u32)
    requires { n ≤ 4096 }
{
    let _ = fresh(b, 4096);
    put(b, 1, 1);
    for i in 0..n {
        put(b, (17 + i / 32) as usize, 4294967295);
        put_node(b, 145 + 8 * i, i + 1, 0, next(i, n), n - i);
    }
}

// No node is free in a chain of 4,096, so only what makes nothing succeeds; the key is the deepest.
fn full_chain(rt: &impl Print) -> io::Result<()> {
    let mut b = [0u32; 32913];
    chain(&mut b, 4096);
    rt.print("chain of 4096 into version 1:")?;
    calls(rt, &mut b, 1, 0, 0, 4096)?;
    show(rt, ", remove first", remove(&mut b, 1, 0, 1))?;
    show(rt, ", clear", clear(&mut b, 0))?;
    rt.print("\n")
}

// The insert of an equal last key makes a node for each of a chain's: 2,047 are free, then 2,048.
fn half_chain(rt: &impl Print) -> io::Result<()> {
    let mut b = [0u32; 32913];
    chain(&mut b, 2048);
    let _ = insert(&mut b, 1, 1, 1, 1);
    show(
        rt,
        "chain of 2048: insert equal, one fewer free",
        insert(&mut b, 2, 0, 2048, 1),
    )?;
    let _ = clear(&mut b, 1);
    show(rt, ", exact room", insert(&mut b, 2, 0, 2048, 1))?;
    rt.print("\n")
}

// Version 0 of N = 96 becomes a left chain of 64 and `more` nodes, by hand, and is listed against empty.
fn left_chain(rt: &impl Print, more: u32) -> io::Result<()>
    requires { more ≤ 1 }
{
    let mut b = [0u32; 788];
    let mut out = [0u32; 4];
    let _ = fresh(&mut b, 96);
    put(&mut b, 1, 1);
    put(&mut b, 17, 4294967295);
    put(&mut b, 18, 4294967295);
    put(&mut b, 19, more);
    let n = 64 + more;
    for i in 0..n {
        put_node(&mut b, 20 + 8 * i, n - i, next(i, n), 0, n - i);
    }
    match list(&b, 0, 15, 0, &mut out) {
        Ok(report) => {
            let total = report.total;
            print!(rt; " 0 of {total}")
        }
        Err(refusal) => {
            let number = refusal.number();
            print!(rt; " {number} of 0")
        }
    }
}

fn deepest(rt: &impl Print) -> io::Result<()> {
    rt.print("case 9: left chain of 64:")?;
    left_chain(rt, 0)?;
    rt.print(", of 65:")?;
    left_chain(rt, 1)?;
    rt.print("\n")
}

// What was asked, the number that the call gave back and the minutes, in one print.
fn minutes(rt: &impl Print, s: &str, answer: Result<u64, Refusal>) -> io::Result<()> {
    let (number, minutes) = match answer {
        Ok(minutes) => (0, minutes),
        Err(refusal) => (refusal.number(), 0),
    };
    print!(rt; "{s} {number}:{minutes}")
}

fn chain_asked(rt: &impl Print, b: &[u32]) -> io::Result<()> {
    minutes(rt, "held: chain of 4096", held(b, 0))?;
    minutes(rt, ", 10 to 20", held_between(b, 0, 10, 20))?;
    minutes(rt, ", 20 to 10", held_between(b, 0, 20, 10))?;
    minutes(rt, ", 4096 on", held_between(b, 0, 4096, 4294967295))?;
    minutes(rt, ", of version 15", held(b, 15))?;
    minutes(rt, ", of version 16", held(b, 16))?;
    rt.print("\n")
}

// Each entry of a chain holds one minute.
fn chain_sums(rt: &impl Print) -> io::Result<()> {
    let mut b = [0u32; 32913];
    chain(&mut b, 4096);
    chain_asked(rt, &b)
}

// Two values that together pass a word. Then the high word of the root's sum is changed: node 1 is the root, and its words begin at 18.
fn long_sums(rt: &impl Print) -> io::Result<()> {
    let mut b = [0u32; 274];
    let _ = fresh(&mut b, 32);
    let _ = insert(&mut b, 0, 0, 0, 4294967295);
    let _ = insert(&mut b, 1, 0, 4294967295, 4294967295);
    minutes(rt, "held: twice the largest value", held(&b, 1))?;
    minutes(rt, ", the first", held_between(&b, 1, 0, 0))?;
    minutes(
        rt,
        ", the last",
        held_between(&b, 1, 4294967295, 4294967295),
    )?;
    minutes(rt, ", between", held_between(&b, 1, 1, 4294967294))?;
    put(&mut b, 25, 1);
    minutes(rt, ", damaged", held(&b, 1))?;
    rt.print("\n")
}

// The number of what is wrong with a line, 0 for nothing, and the place of a byte that is no digit.
fn said(rt: &impl Print, line: &[u8]) -> io::Result<()> {
    let said = parse(line);
    let number = match said {
        Ok(_) => 0,
        Err(fault) => fault.number(),
    };
    print!(rt; " {number}")?;
    if let Err(Fault::Digit(place)) = said {
        print!(rt; " at {place}")?;
    }
    Ok(())
}

fn digits(rt: &impl Print) -> io::Result<()> {
    rt.print("case 11: 34 digits")?;
    said(rt, b"000000070000000101000000030000001f\n")?;
    rt.print(", 33 digits")?;
    said(rt, b"00000007000000010100000003000001f\n")?;
    rt.print("\n")
}

// The examples of docs/LINES.md, in its order.
fn faults(rt: &impl Print) -> io::Result<()> {
    rt.print("lines:")?;
    said(rt, b"00000007000000010100000003000001f\n")?;
    said(rt, b"000000070000000101000000030000001f\r\n")?;
    said(rt, b"000000070000000101000000030000001f")?;
    said(rt, b"000000070000000101000000030000001F\n")?;
    said(rt, b"00000007000o0001010000000300000o1f\n")?;
    said(rt, b"000000070000000103000000030000001f\n")?;
    said(rt, b"000000070001000101000000030000001f\n")?;
    said(rt, b"000000070000000001000000030000001f\n")?;
    said(rt, b"000000070000100101000000030000001f\n")?;
    said(rt, b"000000070000000102000000030000001f\n")?;
    said(rt, b"0000000700000001000000000300000000\n")?;
    said(rt, b"00000007000000000300000003000000XX\n")?;
    said(rt, b"000000070000000003000000030000001f\n")?;
    rt.print("\n")
}

fn main(rt: HostRuntime) -> io::Result<()> {
    deepest(&rt)?;
    exact_room(&rt)?;
    known_versions(&rt)?;
    largest(&rt)?;
    digits(&rt)?;
    faults(&rt)?;
    known_rules(&rt)?;
    zeros(&rt)?;
    full_chain(&rt)?;
    half_chain(&rt)?;
    chain_sums(&rt)?;
    long_sums(&rt)
}
