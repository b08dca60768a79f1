// Eight digits at once, by sums on one word of 64 bits. Nothing is looked up, and no branch depends on which digits they are, but for all zeros.
ghost use Rattle.std.specs.Prelude.{◌≡◌, ◌+◌, ◌*◌, ◌/◌, ◌<◌, ◌≤◌, length, take, drop};
ghost use Rattle.std.specs.Int.Bits.{bit_and};
ghost use Rattle.model.specs.Frame as model;
ghost use Rattle.answers.specs.Answers.{answer};
ghost use Rattle.frame.specs.Eights.{high_first, values_of, texts_of, packed_of};

// The bytes of eight digits, a digit below 16 in each byte of n: 48 + n, and 39 more where n + 6 carries out of its four bits, so from 10 on.
pub fn texts(n: u64) -> u64
    requires { n ≤ 1085102592571150095 }
    ensures { result ≡ texts_of n }
{
    let letters = ((n + 0x0606060606060606) / 16) & 0x0101010101010101;
    n + 0x3030303030303030 + 39 * letters
}

// The digits that eight bytes would stand for: a letter has bit 6, and its low four bits are 9 below its digit.
fn values(x: u64) -> u64
    ensures { (result ≡ values_of x) × (result ≤ 1085102592571150095) }
{
    ((x & 0x0f0f0f0f0f0f0f0f) + 9 * ((x / 64) & 0x0101010101010101)) & 0x0f0f0f0f0f0f0f0f
}

// Eight digits, one in each byte of n, moved together: by pairs, by fours, all eight. The test keeps two of them apart, which would be done at once with masks from constant data.
fn packed(n: u64) -> u32
    requires { n ≤ 1085102592571150095 }
    ensures { result ≡ packed_of n }
{
    if n == 0 {
        return 0;
    }
    let y = (n + n / 16) & 0x00ff00ff00ff00ff;
    let z = (y + y / 256) & 0x0000ffff0000ffff;
    ((z + z / 65536) % 4294967296) as u32
}

// The eight bytes from `at` on as one number, the first highest.
fn bytes_at(line: &[u8], at: usize) -> u64
    requires { at + 8 ≤ length line.now }
    ensures { result ≡ high_first 0 (take 8 (drop at line.now)) }
{
    u64::from_be_bytes([
        line[at],
        line[at + 1],
        line[at + 2],
        line[at + 3],
        line[at + 4],
        line[at + 5],
        line[at + 6],
        line[at + 7],
    ])
}

// The number in the eight digits from `at` on. The bytes are digits exactly where they are the bytes of what they would stand for.
pub fn read_eight(line: &[u8], at: usize) -> Option<u32>
    requires { at + 8 ≤ length line.now }
    ensures { answer result ≡ model.field line.now at 8 }
{
    let x = bytes_at(line, at);
    let n = values(x);
    if texts(n) == x { Some(packed(n)) } else { None }
}
