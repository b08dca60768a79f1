// Does one call and prints its name, what it answers and, after an edit, the destination's tree.
use crate::lines::Call;
use crate::trees::{or_dash, tree};
use answers::Refusal;
use lists::entries::list;
use std::io;
use table::{clear, copy, difference, insert, lookup, remove, size, union};

// A call that is refused says so: of the sample's calls only a sum that does not fit may be.
fn refused(rt: &impl Print, refusal: Refusal) -> io::Result<()> {
    let number = refusal.number();
    print!(rt; " refused {number}")
}

// The value under a key.
fn show_value(rt: &impl Print, found: Option<u32>) -> io::Result<()> {
    rt.print(" ")?;
    or_dash(rt, found)
}

fn show_lookup(rt: &impl Print, b: &[u32], version: u32, key: u32) -> io::Result<()> {
    rt.print("lookup")?;
    match lookup(b, version, key) {
        Ok(found) => show_value(rt, found),
        Err(refusal) => refused(rt, refusal),
    }
}

// The number of entries.
fn show_size(rt: &impl Print, b: &[u32], version: u32) -> io::Result<()> {
    rt.print("size")?;
    match size(b, version) {
        Ok(size) => print!(rt; " {size}"),
        Err(refusal) => refused(rt, refusal),
    }
}

// Key, left value, and right value or a dash.
fn show_row(rt: &impl Print, row: &[u32]) -> io::Result<()> {
    if let [key, left, both, right] = row {
        print!(rt; " {key}:{left}:")?;
        or_dash(rt, if *both == 0 { None } else { Some(*right) })?;
    }
    Ok(())
}

// One version against another, whole.
fn show_list(rt: &impl Print, b: &[u32], left: u32, right: u32) -> io::Result<()> {
    let mut rows = [0u32; 8192];
    rt.print("list")?;
    match list(b, left, right, 0, &mut rows) {
        Ok(report) => {
            for row in rows.chunks_exact(4).take(report.total as usize) {
                show_row(rt, row)?;
            }
            Ok(())
        }
        Err(refusal) => refused(rt, refusal),
    }
}

// An edit that answers what stood under its key.
fn show_old(
    rt: &impl Print,
    b: &[u32],
    dest: u32,
    old: Result<Option<u32>, Refusal>,
) -> io::Result<()> {
    match old {
        Ok(found) => {
            show_value(rt, found)?;
            tree(rt, b, dest)
        }
        Err(refusal) => refused(rt, refusal),
    }
}

fn show_edit(rt: &impl Print, b: &[u32], dest: u32, done: Result<(), Refusal>) -> io::Result<()> {
    match done {
        Ok(()) => tree(rt, b, dest),
        Err(refusal) => refused(rt, refusal),
    }
}

// The line of an edit, but for its end.
fn edit(rt: &impl Print, b: &mut [u32], call: Call) -> io::Result<()> {
    match call {
        Call::Clear { dest } => {
            rt.print("clear")?;
            let done = clear(b, dest);
            show_edit(rt, b, dest, done)
        }
        Call::Insert {
            dest,
            source,
            key,
            value,
        } => {
            rt.print("insert")?;
            let old = insert(b, dest, source, key, value);
            show_old(rt, b, dest, old)
        }
        Call::Remove { dest, source, key } => {
            rt.print("remove")?;
            let old = remove(b, dest, source, key);
            show_old(rt, b, dest, old)
        }
        Call::Copy { dest, source } => {
            rt.print("copy")?;
            let done = copy(b, dest, source);
            show_edit(rt, b, dest, done)
        }
        Call::Union {
            dest,
            left,
            right,
            rule,
        } => {
            rt.print("union")?;
            let done = union(b, dest, left, right, rule);
            show_edit(rt, b, dest, done)
        }
        Call::Difference {
            dest,
            left,
            right,
            rule,
            cancel,
        } => {
            rt.print("difference")?;
            let done = difference(b, dest, left, right, rule, cancel);
            show_edit(rt, b, dest, done)
        }
        _ => Ok(()),
    }
}

// Does a call, and prints its line.
pub fn perform(rt: &impl Print, b: &mut [u32], call: Call) -> io::Result<()> {
    match call {
        Call::Lookup { version, key } => show_lookup(rt, b, version, key)?,
        Call::Size { version } => show_size(rt, b, version)?,
        Call::List { left, right } => show_list(rt, b, left, right)?,
        _ => edit(rt, b, call)?,
    }
    rt.print("\n")
}
