// A request's lines, 35 bytes each: whether they are well formed, whether they are of a batch, and which indexes they ask for.
ghost use Rattle.std.specs.Prelude.{◌≡◌, true, ◌&&◌, ◌++◌, ◌*◌, ◌+◌, ◌-◌, ◌≤◌, leb, length, take, drop};
ghost use Rattle.model.specs.Request.{last_of, in_place, right_kind, ascend, says_complete, well_formed, cutting, six_fields, all_fields, all_of};
ghost use Rattle.frame.specs.Fields.{fields_of};
ghost use Rattle.requests.specs.Reading.{six_of, holds, choice, counting, Chooses};

use crate::Kind;
use frame::Frame;

// The six fields of line i, if it is digits and a newline.
fn line_at(request: &[u8], i: usize) -> Option<Frame>
    requires { 35 * i + 35 ≤ length request.now }
    ensures { six_of result ≡ six_fields (take 35 (drop (35 * i) request.now)) }
{
    let at = 35 * i;
    if request[at + 34] != b'\n' {
        return None;
    }
    frame::fields(&request[at..at + 35]).ok()
}

// Whether index and count are the line's place and the number of lines.
#[tactic(auto, unfolding(model::specs::Request::in_place))]
fn in_place(f: Frame, count: usize, place: usize) -> bool
    ensures { result ≡ in_place count place (fields_of f) }
{
    f.index as usize == place && f.count as usize == count
}

// Whether the line asks, by kind 10 with value 0 or by kind 11 with a key below its value.
#[tactic(auto, unfolding(model::specs::Request::right_kind))]
fn right_kind(f: Frame) -> bool
    ensures { result ≡ right_kind (fields_of f) }
{
    if f.kind == Kind::One as u32 {
        f.value == 0
    } else {
        f.kind == Kind::Run as u32 && f.key < f.value
    }
}

// The last index that a line asks for.
#[tactic(auto, unfolding(model::specs::Request::last_of))]
fn last_of(f: Frame) -> u32
    ensures { result ≡ last_of (fields_of f) }
{
    if f.kind == Kind::One as u32 {
        f.key
    } else {
        f.value
    }
}

// Whether a line in its place asks for indexes from least on, none above 4,095.
fn asks_from(f: Frame, count: usize, place: usize, least: u32) -> bool
    ensures { result ≡ (in_place count place (fields_of f) && right_kind (fields_of f) && leb least (fields_of f).key && leb (last_of (fields_of f)) 4095) }
{
    in_place(f, count, place) && right_kind(f) && least <= f.key && last_of(f) <= 4095
}

// Whether n lines ask, each for indexes above those of the one before. The number of lines goes beside them here and below: it is divided out once, and contracts cut the request by it.
fn ascending(request: &[u8], n: usize) -> bool
    requires { length request.now ≡ 35 * n }
    ensures { result ≡ holds (ascend n 0 0) (all_fields (cutting n request.now)) }
{
    let mut least = 0;
    for i in 0..n {
        let Some(f) = line_at(request, i) else {
            return false;
        };
        if !asks_from(f, n, i, least) {
            return false;
        }
        least = last_of(f) + 1;
    }
    true
}

// Whether the only line says complete: kind 12 with key and value 0. Index, key and value are 0 where their sum is: tests field by field would read constant data.
fn says_complete(request: &[u8]) -> bool
    requires { length request.now ≡ 35 }
    ensures { result ≡ holds says_complete (all_fields (cutting 1 request.now)) }
{
    let Some(f) = line_at(request, 0) else {
        return false;
    };
    if f.count != 1 || f.kind != Kind::Complete as u32 {
        return false;
    }
    f.index as u64 + f.key as u64 + f.value as u64 == 0
}

// Whether the request is well formed. A short last piece is no line.
pub fn well_formed(request: &[u8]) -> bool
    ensures { result ≡ holds well_formed (all_fields (cutting (counting request.now) request.now)) }
{
    let n = request.len() / 35;
    if n == 0 || request.len() % 35 != 0 {
        return false;
    }
    (n == 1 && says_complete(request)) || ascending(request, n)
}

// Whether each of n lines is of the batch.
pub fn of_batch(request: &[u8], n: usize, batch: u32) -> bool
    requires { length request.now ≡ 35 * n }
    ensures { result ≡ holds (all_of batch) (all_fields (cutting n request.now)) }
{
    for i in 0..n {
        let Some(f) = line_at(request, i) else {
            return false;
        };
        if f.batch != batch {
            return false;
        }
    }
    true
}

// The indexes from first on that are below end, behind the k that are chosen: how many are chosen then.
fn choose_run(chosen: &mut [u32], k: u32, first: u32, end: u32) -> u32
    requires { (k ≤ first) × (end ≤ length chosen.old) × (length chosen.old ≡ 4096) }
    ensures { (result ≡ k + (end - first)) × (take result chosen.new ≡ take k chosen.old ++ choice (λ _. true) first (end - first)) }
{
    let mut n = k;
    for i in first..end {
        // n is below 4,096; said so, the loop is not made wide, which would read constant data.
        chosen[(n % 4096) as usize] = i;
        n += 1;
    }
    n
}

// The indexes below end that n lines of a well-formed request ask for, ascending: how many they are. A line that says complete asks for none.
// `chosen` is lent, since it has a fixed length and a struct of it would be copied with it.
pub fn choose(request: &[u8], n: usize, end: u32, chosen: &mut [u32]) -> u32
    requires { (length request.now ≡ 35 * n) × (end ≤ 4096) × (length chosen.old ≡ 4096) × (holds well_formed (all_fields (cutting n request.now)) ≡ true) }
    ensures { Chooses (all_fields (cutting n request.now)) end result chosen.new }
{
    let mut k = 0;
    for i in 0..n {
        let Some(f) = line_at(request, i) else {
            return k;
        };
        if f.kind != Kind::Complete as u32 {
            k = choose_run(chosen, k, f.key, (last_of(f) + 1).min(end));
        }
    }
    k
}
