// The calls that edit, and their steps on the words.
ghost use Rattle.std.specs.Prelude.{◌≡◌, ◌≤◌, ◌<◌, length};
ghost use Rattle.model.specs.Tree.{without};
ghost use Rattle.model.specs.Kiosk.{count, pairs, SoundKiosk, Holds, Fresh, Insert, Remove};
ghost use Rattle.answers.specs.Numbers.{code};
ghost use Rattle.answers.specs.Answers.{found_of};
ghost use Rattle.kiosk.specs.Places.{Place, Opened, Closed, Putting, Editing};

use crate::slice::{check, has, place, shape, value_at};
use answers::Refusal;

// Fresh: any 129 words will do, as all are written.
pub fn fresh(k: &mut [u32]) -> Result<(), Refusal>
    ensures { Fresh k.old k.new (code result) }
{
    if !shape(k) {
        return Err(Refusal::Shape);
    }
    k.fill(0);
    Ok(())
}

// The pairs from i on go up by one.
fn open_up(k: &mut [u32], i: usize)
    requires { (length k.old ≡ 129) × (count k.old < 64) × (i ≤ count k.old) }
    ensures { Opened k.old k.new i }
{
    let end = 1 + 2 * k[0] as usize;
    k.copy_within(1 + 2 * i..end, 3 + 2 * i);
}

// The pairs behind i go down by one, and the last is emptied.
fn close_up(k: &mut [u32], i: usize)
    requires { (length k.old ≡ 129) × (count k.old ≤ 64) × (i < count k.old) }
    ensures { Closed k.old k.new i }
{
    let last = 2 * k[0] as usize - 1;
    k.copy_within(3 + 2 * i..last + 2, 1 + 2 * i);
    k[last] = 0;
    k[last + 1] = 0;
}

// The value under the key, whose place is i: only a new key takes room.
pub fn put(k: &mut [u32], i: usize, key: u32, value: u32) -> Result<(), Refusal>
    requires { SoundKiosk k.old × Place k.old key i }
    ensures { Putting k.old k.new key value (code result) }
{
    if has(k, key, i) {
        k[2 + 2 * i] = value;
        return Ok(());
    }
    let n = k[0];
    if 64 <= n {
        return Err(Refusal::NoRoom);
    }
    open_up(k, i);
    k[1 + 2 * i] = key;
    k[2 + 2 * i] = value;
    k[0] = n + 1;
    Ok(())
}

// Nothing under the key, whose place is i.
pub fn take_out(k: &mut [u32], i: usize, key: u32)
    requires { SoundKiosk k.old × Place k.old key i }
    ensures { Holds k.new (without (pairs k.old) key) }
{
    if !has(k, key, i) {
        return;
    }
    let n = k[0];
    close_up(k, i);
    k[0] = n - 1;
}

// The edit of a frame, by the number of its kind as `tree::edit` has it: a put inserts, a remove removes, and "nothing" changes nothing.
pub fn edit(k: &mut [u32], kind: u32, key: u32, value: u32) -> Result<(), Refusal>
    requires { SoundKiosk k.old }
    ensures { Editing k.old k.new kind key value (code result) }
{
    if kind == 0 {
        return Ok(());
    }
    let i = place(k, key);
    if kind == 1 {
        return put(k, i, key, value);
    }
    take_out(k, i, key);
    Ok(())
}

// The key with this value; the old one is the answer.
pub fn insert(k: &mut [u32], key: u32, value: u32) -> Result<Option<u32>, Refusal>
    ensures { Insert k.old k.new key value (found_of result) }
{
    check(k)?;
    if value == 0 {
        return Err(Refusal::Zero);
    }
    let i = place(k, key);
    let old = value_at(k, key, i);
    put(k, i, key, value)?;
    Ok(old)
}

// The key taken out; what stood there is the answer.
pub fn remove(k: &mut [u32], key: u32) -> Result<Option<u32>, Refusal>
    ensures { Remove k.old k.new key (found_of result) }
{
    check(k)?;
    let i = place(k, key);
    let old = value_at(k, key, i);
    take_out(k, i, key);
    Ok(old)
}
