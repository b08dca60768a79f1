// The words: shape, soundness, and where a key stands.
ghost use Rattle.std.specs.Prelude.{◌≡◌, ◌≤◌, ◌<◌, length};
ghost use Rattle.model.specs.Tree.{find};
ghost use Rattle.model.specs.Tells.{Tells};
ghost use Rattle.model.specs.Kiosk.{count, key_at, pairs, SoundKiosk, Checked};
ghost use Rattle.answers.specs.Numbers.{code};
ghost use Rattle.answers.specs.Answers.{answer};
ghost use Rattle.kiosk.specs.Places.{Ascend, Unused, Place};

use answers::Refusal;

// Whether the kiosk has 129 words.
pub fn shape(k: &[u32]) -> bool
    ensures { Tells result (length k.now ≡ 129) }
{
    k.len() == 129
}

// Whether the first n keys ascend strictly.
fn ascending(k: &[u32], n: usize) -> bool
    requires { (length k.now ≡ 129) × (n ≤ 64) }
    ensures { Tells result (Ascend k.now n) }
{
    for i in 1..n {
        if k[1 + 2 * i] <= k[2 * i - 1] {
            return false;
        }
    }
    true
}

// Whether every word behind n pairs is 0.
fn unused(k: &[u32], n: usize) -> bool
    requires { (length k.now ≡ 129) × (n ≤ 64) }
    ensures { Tells result (Unused k.now n) }
{
    k[1 + 2 * n..].iter().all(|&word| word == 0)
}

// At most 64 entries, keys ascend, and unused pairs are zero.
pub fn sound(k: &[u32]) -> bool
    requires { length k.now ≡ 129 }
    ensures { Tells result (SoundKiosk k.now) }
{
    let n = k[0] as usize;
    n <= 64 && ascending(k, n) && unused(k, n)
}

// Whether the kiosk may be read: shape, then soundness; block and inbox have a check each (`audit::check`).
pub fn check(k: &[u32]) -> Result<(), Refusal>
    ensures { Checked k.now (code result) }
{
    if !shape(k) {
        return Err(Refusal::Shape);
    }
    if !sound(k) {
        return Err(Refusal::Damaged);
    }
    Ok(())
}

// Where the key stands or would stand: how many keys are below it. Keys and values stand in turn, so there is no slice of keys for the library to search.
pub fn place(k: &[u32], key: u32) -> usize
    requires { SoundKiosk k.now }
    ensures { Place k.now key result }
{
    let n = k[0] as usize;
    for i in 0..n {
        if key <= k[1 + 2 * i] {
            return i;
        }
    }
    n
}

// Whether the key is that of pair i.
pub fn has(k: &[u32], key: u32, i: usize) -> bool
    requires { SoundKiosk k.now × (i ≤ count k.now) }
    ensures { Tells result ((i < count k.now) × (key_at k.now i ≡ key)) }
{
    i < k[0] as usize && k[1 + 2 * i] == key
}

// What stands under the key, whose place is i.
pub fn value_at(k: &[u32], key: u32, i: usize) -> Option<u32>
    requires { SoundKiosk k.now × Place k.now key i }
    ensures { answer result ≡ find (pairs k.now) key }
{
    if has(k, key, i) {
        Some(k[2 + 2 * i])
    } else {
        None
    }
}
