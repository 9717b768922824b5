// The entries in some bytes: whether the one at a place is broken, or whole, its name, and a walk over them that counts
// them by table and says whether one has a given name.
ghost use Rattle.std.specs.Prelude.{◌≡◌, ◌<◌, MatchOption, slice_index};
ghost use Rattle.image.specs.Bytes.{same};
ghost use Rattle.image.specs.Tables.{table_of};
ghost use Rattle.image.specs.Stored.{broken};
ghost use Rattle.image.specs.Tally.{raised_counts};
ghost use Rattle.image.specs.Steps.Contracts.{LessOne, WholeLengthPre, NotWhole, WholeLength, NameAtPre, NameRead};
ghost use Rattle.image.specs.Steps.Walk.{IsSoughtPre, WalkPre, NoneWalked, WalkedEntries};

use super::HEAD_SIZE;
use jhash::hash_or_zero;
use jhash::word::word;

// A length word minus 1; of 0 the largest number of all, which exceeds the length of any image.
fn less_one(len: u32) -> u64
    ensures { LessOne len result }
{
    (len as u64).wrapping_sub(1)
}

// Does the entry at `at` reach past the end of the image, with its first 8 bytes or its name, or is its length word 0?
// The last two are one comparison.
pub fn broken(image: &[u8], at: u32) -> bool
    ensures { result ≡ broken image.now at }
{
    let start = at as usize + 8;
    if image.len() < start {
        return true;
    }
    let left = image.len() - start;
    (left as u64) < less_one(word(image, at as usize + 4))
}

// One more in the table of a hash.
pub fn raise(counts: &mut [u32; 256], h: u32)
    requires { slice_index counts.old (table_of h) < 4294967295 }
    ensures { counts.new ≡ raised_counts counts.old h }
{
    counts[(h % 256) as usize] += 1;
}

// What a walk over whole entries found: their back size, and whether one has the name that was sought.
#[derive(Clone, Copy)]
pub struct Walked {
    pub back: u64,
    pub contains: bool,
}

// The length word of the entry at `at`, if it is whole before `end`. It is then not 0.
pub fn whole_length(buf: &[u8], at: usize, end: usize) -> Option<usize>
    requires { WholeLengthPre buf.now at end }
    ensures { MatchOption result (NotWhole buf.now at end) (WholeLength buf.now at end) }
{
    if end - at < 8 {
        return None;
    }
    let n = word(buf, at + 4) as usize;
    if n == 0 {
        return None;
    }
    if end - at < 8 + n {
        return None;
    }
    if buf[at + 7 + n] != 0 {
        return None;
    }
    Some(n)
}

// The name of the whole entry at `at`, whose length word is n.
pub fn name_at<'a>(buf: &'a [u8], at: usize, n: usize) -> &'a [u8]
    requires { NameAtPre buf.now at n }
    ensures { NameRead buf.now at n result.now }
{
    &buf[at + 8..at + 7 + n]
}

// Whether an entry's name, whose hash is h, is the one that is sought, whose hash is `want`. The entry is hashed for
// the counts anyway, so its bytes are compared only where the hashes are equal.
fn is_sought(name: &[u8], h: u32, sought: &[u8], want: u32) -> bool
    requires { IsSoughtPre name.now h sought.now want }
    ensures { result ≡ same name.now sought.now }
{
    if h != want {
        return false;
    }
    super::equality::same(name, sought)
}

// Walks `entries` entries from 2,072 on, counts them by table and says whether one has the name that is sought. The
// walk continues past that name, since a broken entry may follow; where one is broken, there is no answer. The length
// word is read once more where the entry is whole: the value that `whole_length` gives would have to wait for the byte
// that it tests last.
pub fn walk(
    buf: &[u8],
    end: usize,
    entries: u32,
    counts: &mut [u32; 256],
    sought: &[u8],
) -> Option<Walked>
    requires { WalkPre buf.now end counts.old }
    ensures { MatchOption result (NoneWalked buf.now end entries)
        (WalkedEntries buf.now end entries sought.now counts.old counts.new) }
{
    let mut at = HEAD_SIZE;
    let mut back: u64 = 0;
    let mut contains = false;
    let want = hash_or_zero(sought);
    for _ in 0..entries {
        whole_length(buf, at, end)?;
        let n = word(buf, at + 4) as usize;
        let name = name_at(buf, at, n);
        back = back.max(word(buf, at) as u64 + 1);
        let h = hash_or_zero(name);
        raise(&mut *counts, h);
        contains |= is_sought(name, h, sought, want);
        at += 8 + n;
    }
    if at != end {
        return None;
    }
    Some(Walked { back, contains })
}
