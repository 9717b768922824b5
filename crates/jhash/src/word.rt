// The little-endian words of a slice: what the hash reads of a name, and the crates above of an image. `word` and
// `word_near_end` are internal functions: the caller knows whether all four bytes are there, so no read is tested
// twice.
ghost use Rattle.std.specs.Prelude.{◌≡◌, ◌+◌, ◌<◌, ◌≤◌, length, slice_index};
ghost use Rattle.jhash.specs.Word.{word};
ghost use Rattle.jhash.specs.Steps.Reads.{ByteRead};

// A byte widened: the result is below 256, so a sum of four digits of a word cannot wrap.
pub fn byte_as_word(x: u8) -> u32
    ensures { ByteRead x result }
{
    x as u32
}

// The byte at `at`, 0 past the end.
fn byte_or_zero(s: &[u8], at: usize) -> u32
    ensures { ByteRead (slice_index s.now at) result }
{
    if at < s.len() { byte_as_word(s[at]) } else { 0 }
}

// The word at `at`, all of whose bytes are there. The compiler makes one load of it.
pub fn word(s: &[u8], at: usize) -> u32
    requires { at + 4 ≤ length s.now }
    ensures { result ≡ word s.now at }
{
    byte_as_word(s[at])
        + byte_as_word(s[at + 1]) * 256
        + byte_as_word(s[at + 2]) * 65536
        + byte_as_word(s[at + 3]) * 16777216
}

// The word at `at`, of which at most three bytes are there: past the end stand zeros.
pub fn word_near_end(s: &[u8], at: usize) -> u32
    requires { length s.now < at + 4 }
    ensures { result ≡ word s.now at }
{
    if s.len() <= at {
        return 0;
    }
    byte_as_word(s[at]) + byte_or_zero(s, at + 1) * 256 + byte_or_zero(s, at + 2) * 65536
}
