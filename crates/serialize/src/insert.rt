// Entries inserted one after the other into the hash tables and the back array.
ghost use Rattle.std.specs.Prelude.{◌≡◌, ℕ, ◌+◌, ◌<◌, ◌≤◌, false, ◌++◌, length, IfSome};
ghost use Rattle.std.proofs.lemmas.List.Edits.{sets};
ghost use Rattle.image.specs.Bytes.{le32};
ghost use Rattle.serialize.specs.Steps.Insertion.{holds_table, HoldsTablePre};
ghost use Rattle.serialize.specs.Steps.Insertion.{back_stored, entry_hash, EntryPre, InsertEntryPre};
ghost use Rattle.serialize.specs.Steps.Insertion.{InsertEntriesPre};
ghost use Rattle.serialize.specs.Steps.Meeting.{same_names, ProbePre, Probed, PairInserted, RowInserted};
ghost use Rattle.serialize.specs.Steps.Meeting.{EntryInserted, EntriesInserted};

use image::entries::{name_at, whole_length};
use image::equality::same;
use image::probe::{first_empty, next, start};
use image::rows::Row;
use image::store::store_word;
use image::{HEAD_SIZE, Mode};
use jhash::word::word;

// A pair of hash and offset stored at `at`.
pub(super) fn store_pair(buf: &mut [u8], at: usize, h: u32, offset: u32)
    requires { at + 8 ≤ length buf.old }
    ensures { buf.new ≡ sets buf.old at (le32 h ++ le32 offset) }
{
    store_word(&mut *buf, at, h);
    store_word(&mut *buf, at + 4, offset);
}

// Whether the entries at two offsets have equal names. True also if one of them is not whole.
fn same_names(front: &[u8], a: u32, b: u32) -> bool
    ensures { result ≡ false → same_names front.now b a ≡ false }
{
    let end = front.len();
    let x = a as usize;
    let y = b as usize;
    if end < x {
        return true;
    }
    if end < y {
        return true;
    }
    let Some(m) = whole_length(front, x, end) else {
        return true;
    };
    let Some(n) = whole_length(front, y, end) else {
        return true;
    };
    same(name_at(front, x, m), name_at(front, y, n))
}

// What the search for a bucket found: the first empty one, and whether it met an entry of equal name before.
#[derive(Clone, Copy)]
pub struct Found {
    pub bucket: usize,
    pub met: bool,
}

// The first empty bucket among the n buckets at o for the entry at `at`, whose hash is h, and whether an entry of equal
// name was met. Entries end at `end`.
fn probe(buf: &[u8], end: usize, o: usize, n: usize, h: u32, at: u32) -> Found
    requires { ProbePre buf.now end o n }
    ensures { Probed buf.now end o n h at result.bucket result.met }
{
    let first = start(h, n);
    let mut k = first;
    for _ in 0..n {
        let a = word(buf, o + 8 * k + 4);
        if a == 0 {
            return Found {
                bucket: k,
                met: false,
            };
        }
        if word(buf, o + 8 * k) == h && same_names(&buf[..end], a, at) {
            break;
        }
        k = next(k, n);
    }
    Found {
        bucket: first_empty(buf, o, n, first),
        met: true,
    }
}

// A pair stored in the first empty bucket of its search among the n buckets at o, behind others of its hash. Gives
// whether an entry of equal name was met. Inlined it would cost 9 % of a list in one call at 4,096 names.
#[inline(never)]
fn insert_beside(buf: &mut [u8], end: usize, o: usize, n: usize, h: u32, at: u32) -> bool
    requires { ProbePre buf.old end o n }
    ensures { PairInserted buf.old end o n h at buf.new result }
{
    let found = probe(&*buf, end, o, n, h, at);
    let k = found.bucket;
    store_pair(&mut *buf, o + 8 * k, h, at);
    found.met
}

// The first empty bucket of the search for hash h among the n buckets at o, if no bucket before it has this hash.
fn first_without_equal(buf: &[u8], o: usize, n: usize, h: u32) -> Option<usize>
    requires { ProbePre buf.now 0 o n }
    ensures { IfSome result (λ k. (end at : ℕ) → Probed buf.now end o n h at k false) }
{
    let mut k = start(h, n);
    for _ in 0..n {
        if word(buf, o + 8 * k + 4) == 0 {
            return Some(k);
        }
        if word(buf, o + 8 * k) == h {
            return None;
        }
        k = next(k, n);
    }
    None
}

// Stores a pair in the first empty bucket of its search among the n buckets at o. Gives whether an entry of equal name
// was met. Names are compared only in insert_beside, where another pair has the hash. So the search here stays small,
// which saves 5 % of a list in one call at 4,096 names.
pub(super) fn insert_pair(buf: &mut [u8], end: usize, o: usize, n: usize, h: u32, at: u32) -> bool
    requires { ProbePre buf.old end o n }
    ensures { PairInserted buf.old end o n h at buf.new result }
{
    let Some(k) = first_without_equal(&*buf, o, n, h) else {
        return insert_beside(&mut *buf, end, o, n, h, at);
    };
    store_pair(&mut *buf, o + 8 * k, h, at);
    false
}

// Whether there are buckets, and the n of them at o lie in the buffer.
fn holds_table(buf: &[u8], o: usize, n: usize) -> bool
    requires { HoldsTablePre o n }
    ensures { result ≡ holds_table buf.now o n }
{
    1 <= n && o + 8 * n <= buf.len()
}

// A pair stored in the first empty bucket of its search in the table of its hash, which the row in the head gives.
// Nothing is stored where that table has no buckets or leaves the buffer. Gives whether an entry of equal name was met.
fn insert_by_row(buf: &mut [u8], end: usize, h: u32, at: u32) -> bool
    requires { end ≤ length buf.old }
    ensures { RowInserted buf.old end h at buf.new result }
{
    let table = Row::of(&*buf, (h % 256) as usize);
    if !holds_table(&*buf, table.offset, table.buckets) {
        return true;
    }
    insert_pair(&mut *buf, end, table.offset, table.buckets, h, at)
}

// An id's offset stored in the back array, which begins at `back_offset`; a one-way image has none.
pub fn store_back(mode: Mode, buf: &mut [u8], back_offset: usize, id: u32, at: u32)
    requires { back_offset < 4294967296 }
    ensures { buf.new ≡ back_stored mode buf.old back_offset id at }
{
    match mode {
        Mode::Twoway => image::store_word_clipped(&mut *buf, back_offset + 4 * (id as usize), at),
        Mode::Oneway => {}
    }
}

// The hash of the name of the entry at `at`, whose length word is n.
pub(super) fn entry_hash(buf: &[u8], at: usize, n: usize) -> u32
    requires { EntryPre at n buf.now }
    ensures { result ≡ entry_hash buf.now at n }
{
    jhash::hash_or_zero(name_at(buf, at, n))
}

// The entry at `at`, whose length word is n, inserted into its table and the back array. Gives whether an entry of
// equal name was met.
fn insert_entry(
    mode: Mode,
    back_offset: usize,
    buf: &mut [u8],
    end: usize,
    at: usize,
    n: usize,
) -> bool
    requires { InsertEntryPre back_offset end at n buf.old }
    ensures { EntryInserted mode back_offset buf.old end at n buf.new result }
{
    let id = image::word_or_zero(&*buf, at);
    let h = entry_hash(&*buf, at, n);
    let met = insert_by_row(&mut *buf, end, h, at as u32);
    store_back(mode, &mut *buf, back_offset, id, at as u32);
    met
}

// The entries from 2,072 on, one after the other. Gives whether two of equal name were met; with `stop` it ends at the
// first that meets one.
pub(super) fn insert_entries(
    mode: Mode,
    back_offset: usize,
    buf: &mut [u8],
    end: usize,
    entries: u32,
    stop: bool,
) -> bool
    requires { InsertEntriesPre back_offset end buf.old }
    ensures { EntriesInserted stop mode back_offset end entries buf.old buf.new result }
{
    let mut at = HEAD_SIZE;
    let mut met = false;
    for _ in 0..entries {
        let Some(n) = whole_length(&*buf, at, end) else {
            return true;
        };
        let one = insert_entry(mode, back_offset, &mut *buf, end, at, n);
        if stop & one {
            return true;
        }
        met |= one;
        at += 8 + n;
    }
    met
}
