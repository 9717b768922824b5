// Equality of byte strings.
ghost use Rattle.std.specs.Prelude.{◌≡◌, ◌+◌, ◌*◌, ◌≤◌, length, drop};
ghost use Rattle.image.specs.Bytes.{word, same};
ghost use Rattle.image.specs.Steps.Contracts.{SameFromPre};

use jhash::word::word;

// The two words at `at` as one number, the second above the first. The compiler makes one load of it.
fn word8(s: &[u8], at: usize) -> u64
    requires { at + 8 ≤ length s.now }
    ensures { result ≡ word s.now at + word s.now (at + 4) * 4294967296 }
{
    word(s, at) as u64 + word(s, at + 4) as u64 * 4294967296
}

// Are two byte strings of one length equal from `from` on? By a loop: `==` of the two parts is a call, and a lookup of
// 20 bytes takes a seventh more time.
fn same_from(a: &[u8], b: &[u8], from: usize) -> bool
    requires { SameFromPre a.now b.now from }
    ensures { result ≡ same (drop from a.now) (drop from b.now) }
{
    for i in from..a.len() {
        if a[i] != b[i] {
            return false;
        }
    }
    true
}

// The same, with four bytes at once if there are as many: for the last bytes, fewer than eight.
fn same_last(a: &[u8], b: &[u8], from: usize) -> bool
    requires { SameFromPre a.now b.now from }
    ensures { result ≡ same (drop from a.now) (drop from b.now) }
{
    if a.len() - from < 4 {
        return same_from(a, b, from);
    }
    if word(a, from) != word(b, from) {
        return false;
    }
    same_from(a, b, from + 4)
}

// Are two byte strings equal? They are compared eight bytes at a time, then four, and the last ones one by one. By `==`
// names of 9 to 24 bytes take a tenth to two fifths more time, and by a `for` loop over the eights up to a third more.
pub fn same(a: &[u8], b: &[u8]) -> bool
    ensures { result ≡ same a.now b.now }
{
    if a.len() != b.len() {
        return false;
    }
    let mut i: usize = 0;
    while 8 <= a.len() - i {
        if word8(a, i) != word8(b, i) {
            return false;
        }
        i += 8;
    }
    same_last(a, b, i)
}
