// One walk over the entries checks that each is whole, that its name has no zero byte, that it is in the bucket that
// its put took, and in a two-way image that its id's word in the back array is not below its offset. A put took the
// first bucket of its probe sequence that was empty then. Offsets rise in put order, so in the finished table that is
// the first bucket that is empty or has an offset at or after the entry's own.
ghost use Rattle.std.specs.Prelude.{◌≡◌, MatchOption};
ghost use Rattle.canonical.specs.Steps.Checks.{TablesHeld, in_its_bucket, entry_name, name_ok, is_two, not_before};
ghost use Rattle.canonical.specs.Steps.Contracts.{CheckEntryPre, CheckEntriesPre, EntriesWrong, EntriesFound};

use image::entries::{name_at, raise, whole_length};
use image::probe::{first_empty_before, start};
use image::rows::Row;
use image::zero::has_zero;
use image::{HEAD_SIZE, Mode, size_or_zero, word_or_zero};
use jhash::hash_or_zero;
use jhash::word::word;

// Is an entry of hash h at `at` in the bucket that its put took?
fn in_its_bucket(image: &[u8], h: u32, at: u32) -> bool
    requires { TablesHeld image.now }
    ensures { result ≡ in_its_bucket image.now h at }
{
    let table = Row::of(image, (h % 256) as usize);
    let o = table.offset;
    let n = table.buckets;
    if n == 0 {
        return false;
    }
    let k = first_empty_before(image, o, n, start(h, n), at as u64);
    if word(image, o + 8 * k) != h {
        return false;
    }
    word(image, o + 8 * k + 4) == at
}

// Has the name of the entry at `at`, whose length word is n and hash h, no zero byte, and is the entry in its bucket?
fn check_entry(image: &[u8], at: usize, n: usize, h: u32) -> bool
    requires { CheckEntryPre image.now at n h }
    ensures { result ≡ name_ok image.now at (entry_name image.now at n) }
{
    if has_zero(name_at(image, at, n)) {
        return false;
    }
    in_its_bucket(image, h, at as u32)
}

// Is the back word w not below the entry's offset `at`? A one-way image has no back words.
fn not_before(mode: Mode, at: usize, w: u32) -> bool
    ensures { result ≡ not_before (is_two mode) at w }
{
    (mode == Mode::Oneway) | (at <= w as usize)
}

// What the walk found of entries that are valid: their back size, and how many of them their id's back word points to.
#[derive(Clone, Copy)]
pub struct EntriesChecked {
    pub back: u64,
    pub lasts: u64,
}

// Checks `entries` entries from 2,072 to `end` and counts them by table. The back array is at o.
pub(super) fn check_entries(
    image: &[u8],
    end: usize,
    entries: u32,
    mode: Mode,
    o: usize,
    counts: &mut [u32; 256],
) -> Option<EntriesChecked>
    requires { CheckEntriesPre image.now end o counts.old }
    ensures { MatchOption result (EntriesWrong image.now end entries (is_two mode) o)
        (EntriesFound image.now end entries (is_two mode) o counts.old counts.new) }
{
    let mut at = HEAD_SIZE;
    let mut back: u64 = 0;
    let mut lasts: u64 = 0;
    for _ in 0..entries {
        let n = whole_length(image, at, end)?;
        let h = hash_or_zero(name_at(image, at, n));
        let id = size_or_zero(image, at);
        let w = word_or_zero(image, o + 4 * id);
        if !(not_before(mode, at, w) & check_entry(image, at, n, h)) {
            return None;
        }
        raise(&mut *counts, h);
        back = back.max(id as u64 + 1);
        lasts += u64::from(w as usize == at);
        at += 8 + n;
    }
    if at != end {
        return None;
    }
    Some(EntriesChecked { back, lasts })
}
