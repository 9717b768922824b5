// The 256 table counts: whether one of them exceeds a number.
ghost use Rattle.std.specs.Prelude.{◌≡◌, ℕ, ◌<◌, ◌≤◌, slice_index};
ghost use Rattle.serialize.specs.Record.{none_above};

// The bitwise or of all table counts, a number that no count exceeds. The loop has no branch, so the compiler makes
// vector code of it.
fn or_all(counts: &[u32; 256]) -> u32
    ensures { (t : ℕ) → t < 256 → slice_index counts.now t ≤ result }
{
    let mut all = 0;
    for count in counts {
        all |= *count;
    }
    all
}

// Whether no table count exceeds the number of entries, by a comparison of each, without a branch for each.
fn each_at_most(counts: &[u32; 256], entries: u32) -> bool
    ensures { result ≡ none_above counts.now entries }
{
    let mut none = true;
    for count in counts {
        none &= *count <= entries;
    }
    none
}

// Whether no table count exceeds the number of entries. The bitwise or of all counts is tried first: it is cheaper
// than a comparison of each, which took a third of the time of a small build. The or is at most the sum of the
// counts, which is the number of entries in a record that only begin and put made, so there it always suffices;
// elsewhere each count is compared.
pub fn none_above(counts: &[u32; 256], entries: u32) -> bool
    ensures { result ≡ none_above counts.now entries }
{
    if or_all(counts) <= entries {
        return true;
    }
    each_at_most(counts, entries)
}
