// Packed names: end to end in one buffer, with the list of their end offsets. The calls that take many names at once
// take them in this form: rounds (`batch`) and whole lists (`build`).
ghost use Rattle.std.specs.Prelude.{◌≡◌, ◌<◌, true, false, [], length, MatchOption, slice_index_or};
ghost use Rattle.image.specs.PackedNames.{names, invalid_ends, begin_of};

// Names whose ends neither fall nor pass the bytes.
#[derive(Clone, Copy)]
pub struct PackedNames<'a> {
    pub bytes: &'a [u8],
    pub ends: &'a [u64],
    pub ghost ends_rise: { invalid_ends (length bytes.now) 0 ends.now ≡ false },
}

// Do the ends fall, or pass `size` bytes? The loop reads each of them and ends at none, so the compiler makes no branch
// of the tests.
pub fn invalid_ends(ends: &[u64], size: usize) -> bool
    ensures { result ≡ invalid_ends size 0 ends.now }
{
    let mut bad = false;
    let mut start: u64 = 0;
    for end in ends {
        bad = bad | (*end < start) | ((size as u64) < *end);
        start = *end;
    }
    bad
}

// Where the i-th name begins: where the one before ends, the first at byte 0.
fn begin_of(ends: &[u64], i: usize) -> u64
    requires { i < length ends.now }
    ensures { result ≡ begin_of ends.now i }
{
    if i == 0 { 0 } else { ends[i - 1] }
}

impl<'a> PackedNames<'a> {
    // The names in `bytes` with these ends, unless the ends fall or pass the bytes.
    pub fn new(bytes: &'a [u8], ends: &'a [u64]) -> Option<PackedNames<'a>>
        ensures { MatchOption result (invalid_ends (length bytes.now) 0 ends.now ≡ true)
            (λ p. (p.bytes ≡ bytes.entry) × (p.ends ≡ ends.entry)) }
    {
        if invalid_ends(ends, bytes.len()) {
            return None;
        }
        Some(PackedNames { bytes, ends })
    }

    // The i-th name, counted from 0.
    pub fn name(self, i: usize) -> &'a [u8]
        requires { i < length self.ends.now }
        ensures { result.now ≡ slice_index_or (names self.entry.bytes.now self.entry.ends.now) i [] }
    {
        let start = begin_of(self.ends, i) as usize;
        let end = self.ends[i] as usize;
        &self.bytes[start..end]
    }
}
