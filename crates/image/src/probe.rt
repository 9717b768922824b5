// The probe sequence of a search in a hash table: the bucket that it starts at, the bucket after each, and the first
// that is empty.
ghost use Rattle.std.specs.Prelude.{◌≡◌, ◌<◌};
ghost use Rattle.image.specs.Tables.{start, next, probe_sequence, first_empty};
ghost use Rattle.image.specs.Steps.Contracts.{BucketIs, FirstEmptyPre, offset_at, hidden, first_empty_before};

use jhash::word::word;

// The bucket at which a search for a hash starts in a table of n buckets.
pub fn start(h: u32, n: usize) -> usize
    requires { 0 < n }
    ensures { BucketIs (start h n) n result }
{
    (h / 256) as usize % n
}

// The bucket after bucket k: the next one, and after the last the first. It needs no division.
pub fn next(k: usize, n: usize) -> usize
    requires { k < n }
    ensures { BucketIs (next n k) n result }
{
    if k + 1 < n { k + 1 } else { 0 }
}

// An offset below `before`, otherwise 0, as if later entries were not put.
fn hide(before: u64, w: u32) -> u32
    ensures { result ≡ hidden before w }
{
    if (w as u64) < before { w } else { 0 }
}

// The first of the n buckets at o, from bucket k on, that is empty or has an offset at or after `before`; bucket 0 if
// there is none. Before the entry at `before` was put, this was the first empty one.
pub fn first_empty_before(buf: &[u8], o: usize, n: usize, k: usize, before: u64) -> usize
    requires { FirstEmptyPre buf.now o n k }
    ensures { BucketIs (first_empty_before buf.now o n k before) n result }
{
    let mut i = k;
    for _ in 0..n {
        if hide(before, word(buf, o + 8 * i + 4)) == 0 {
            return i;
        }
        i = next(i, n);
    }
    0
}

// The first empty of the n buckets at o, from bucket k on; bucket 0 where none is empty. No offset is hidden.
pub fn first_empty(buf: &[u8], o: usize, n: usize, k: usize) -> usize
    requires { FirstEmptyPre buf.now o n k }
    ensures { BucketIs (first_empty (offset_at buf.now o) (probe_sequence n n k)) n result }
{
    first_empty_before(buf, o, n, k, 4294967296)
}
