// Zero bytes in a name.
ghost use Rattle.std.specs.Prelude.{◌≡◌, ◌+◌, ◌<◌, ◌≤◌, length, take, drop};
ghost use Rattle.image.specs.Zero.{has_zero};
ghost use Rattle.image.specs.Steps.Contracts.{LengthBeforeZero};

// Is one of the four bytes at `at` zero? The compiler looks at all four at once.
fn zero_in_four(s: &[u8], at: usize) -> bool
    requires { at + 4 ≤ length s.now }
    ensures { result ≡ has_zero (take 4 (drop at s.now)) }
{
    (s[at] == 0) | (s[at + 1] == 0) | (s[at + 2] == 0) | (s[at + 3] == 0)
}

// Is one of the eight bytes at `at` zero? The compiler looks at all eight at once.
fn zero_in_eight(s: &[u8], at: usize) -> bool
    requires { at + 8 ≤ length s.now }
    ensures { result ≡ has_zero (take 8 (drop at s.now)) }
{
    zero_in_four(s, at) | zero_in_four(s, at + 4)
}

// Has a name of fewer than eight bytes a zero byte? The last four bytes overlap the first four.
fn zero_in_short(name: &[u8]) -> bool
    requires { length name.now < 8 }
    ensures { result ≡ has_zero name.now }
{
    if name.len() < 4 {
        return length_before_zero(name) < name.len();
    }
    zero_in_four(name, 0) | zero_in_four(name, name.len() - 4)
}

// Has a name a zero byte? The first and the last eight bytes are looked at together, then eight by eight those between
// them. They may overlap, so that no byte of a name of eight or more is looked at by itself.
pub fn has_zero(name: &[u8]) -> bool
    ensures { result ≡ has_zero name.now }
{
    if name.len() < 8 {
        return zero_in_short(name);
    }
    let last = name.len() - 8;
    if zero_in_eight(name, 0) | zero_in_eight(name, last) {
        return true;
    }
    for i in (8..last).step_by(8) {
        if zero_in_eight(name, i) {
            return true;
        }
    }
    false
}

// How many bytes of a name precede its first zero byte; all of them where it has none.
pub fn length_before_zero(name: &[u8]) -> usize
    ensures { LengthBeforeZero name.now result }
{
    name.iter().position(|b| *b == 0).unwrap_or(name.len())
}
