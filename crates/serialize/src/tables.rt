// Each table filled from its pairs, which partition has stored where it will stand. They are copied first. In a large
// image the buckets of one table stay in the processor's cache while it is filled; entry by entry most accesses would
// miss it.
ghost use Rattle.std.specs.Prelude.{◌≡◌, true};
ghost use Rattle.serialize.specs.Steps.Partition.{CopyPairsPre, PairsCopied, InsertPairsPre, FillTablePre};
ghost use Rattle.serialize.specs.Steps.Partition.{EachCopied, FillTablesPre};
ghost use Rattle.serialize.specs.Steps.Written.{by_tables, FillAllPre};
ghost use Rattle.serialize.specs.Steps.Meeting.{PairsInserted, TableDone, TablesDone, SinglyDone, AllDone};

use super::counts::none_above;
use super::head::clear_bytes;
use super::insert::{insert_entries, insert_pair};
use image::Mode;
use jhash::word::word;

// The most pairs of a small table, whose copy is cheap to clear.
const FEW_PAIRS: usize = 32;

// The same, as counts are stored.
const FEW_PAIRS_32: u32 = FEW_PAIRS as u32;

// The most pairs that the copy on the stack has room for: those of a table of so many entries.
const MANY_PAIRS: usize = 4608;

// The same, as counts are stored.
const MANY_PAIRS_32: u32 = MANY_PAIRS as u32;

// Fewer entries are inserted one by one by close.
const FEW_ENTRIES: u32 = 1024;

// The words of each copy.
const FEW_WORDS: usize = 2 * FEW_PAIRS;

const MANY_WORDS: usize = 2 * MANY_PAIRS;

// The words of the c pairs at o, copied. Two in a turn: of one in a turn the compiler would make a call of the C
// library's memcpy, which nothing proves.
fn copy_pairs(copy: &mut [u32], buf: &[u8], o: usize, c: usize)
    requires { CopyPairsPre copy.old buf.now o c }
    ensures { PairsCopied copy.new buf.now o c }
{
    for i in 0..c {
        copy[2 * i] = word(buf, o + 8 * i);
        copy[2 * i + 1] = word(buf, o + 8 * i + 4);
    }
}

// The table of c entries at o, cleared and filled with c pairs in their order. Gives whether two of equal name were
// met; with `stop` it ends at the first pair that meets one.
fn insert_pairs(buf: &mut [u8], end: usize, o: usize, c: usize, pairs: &[u32], stop: bool) -> bool
    requires { InsertPairsPre end o c pairs.now buf.old }
    ensures { PairsInserted stop buf.old end o c pairs.now buf.new result }
{
    clear_bytes(&mut *buf, o, o + 16 * c);
    let mut met = false;
    for i in 0..c {
        let one = insert_pair(&mut *buf, end, o, 2 * c, pairs[2 * i], pairs[2 * i + 1]);
        if stop & one {
            return true;
        }
        met |= one;
    }
    met
}

// The table of c entries at o, filled from the pairs that stand there. Gives whether two of equal name were met; with
// `stop` it ends at the first pair that meets one.
fn fill_table(buf: &mut [u8], end: usize, o: usize, c: usize, copy: &mut [u32], stop: bool) -> bool
    requires { FillTablePre end o c copy.old }
    ensures { TableDone stop buf.old end o c buf.new result }
{
    if c == 0 {
        return false;
    }
    if buf.len() < o + 16 * c {
        return true;
    }
    copy_pairs(&mut *copy, &*buf, o, c);
    insert_pairs(&mut *buf, end, o, c, &*copy, stop)
}

// All tables, one after the other, each over a copy of its pairs. Gives whether two entries of equal name were met;
// with `stop` it ends at the first pair that meets one.
fn fill_tables(
    buf: &mut [u8],
    counts: &[u32; 256],
    end: usize,
    copy: &mut [u32],
    stop: bool,
) -> bool
    requires { FillTablesPre counts.now end copy.old }
    ensures { TablesDone stop counts.now end buf.old buf.new result }
{
    let mut met = false;
    let mut o = end;
    for count in counts {
        let c = *count as usize;
        let one = fill_table(&mut *buf, end, o, c, &mut *copy, stop);
        if stop & one {
            return true;
        }
        met |= one;
        o += 16 * c;
    }
    met
}

// Has the lent memory room for the pairs of each table?
fn has_room(counts: &[u32; 256], scratch: &[u32]) -> bool
    ensures { result ≡ true → EachCopied counts.now scratch.now }
{
    let pairs = (scratch.len() / 2).min(4294967295);
    none_above(counts, pairs as u32)
}

// The entries from 2,072 on, inserted one by one into an image of `size` bytes whose tables and back array are cleared.
// Gives whether two of equal name were met; with `stop` it ends at the first that meets one.
pub(super) fn insert_singly(
    mode: Mode,
    back_offset: usize,
    buf: &mut [u8],
    end: usize,
    entries: u32,
    size: usize,
    stop: bool,
) -> bool
    requires { FillAllPre back_offset end size buf.old }
    ensures { SinglyDone stop mode back_offset end entries size buf.old buf.new result }
{
    clear_bytes(&mut *buf, end, size);
    insert_entries(mode, back_offset, &mut *buf, end, entries, stop)
}

// Does close fill tables from pairs? Not for few entries, since one by one they take a fifth less time at 400, and not
// where a table has more pairs than the copy on the stack has room for.
pub(super) fn by_tables(counts: &[u32; 256], entries: u32) -> bool
    ensures { result ≡ by_tables counts.now entries }
{
    if entries < FEW_ENTRIES {
        return false;
    }
    none_above(counts, MANY_PAIRS_32)
}

// All tables of an image of `size` bytes filled from their pairs, over a copy on the stack or in the lent memory. Where
// neither has room for the pairs of a table, the entries are inserted one by one. Gives whether two entries of equal
// name were met; with `stop` it ends at the first that meets one, and what the tables then hold is unspecified. An
// internal function for the crates above.
pub fn fill_all(
    mode: Mode,
    back_offset: usize,
    buf: &mut [u8],
    counts: &[u32; 256],
    end: usize,
    entries: u32,
    size: usize,
    scratch: &mut [u32],
    stop: bool,
) -> bool
    requires { FillAllPre back_offset end size buf.old }
    ensures { AllDone stop mode back_offset end entries size counts.now buf.old buf.new result }
{
    // The two copies on the stack differ in size alone. One function over the size would be no plainer: it would repeat
    // the parameters and the contract of fill_tables to save one line here.
    if none_above(counts, FEW_PAIRS_32) {
        let mut copy: [u32; FEW_WORDS] = [0; FEW_WORDS];
        return fill_tables(&mut *buf, counts, end, &mut copy, stop);
    }
    if none_above(counts, MANY_PAIRS_32) {
        let mut copy: [u32; MANY_WORDS] = [0; MANY_WORDS];
        return fill_tables(&mut *buf, counts, end, &mut copy, stop);
    }
    if has_room(counts, &*scratch) {
        return fill_tables(&mut *buf, counts, end, &mut *scratch, stop);
    }
    insert_singly(mode, back_offset, &mut *buf, end, entries, size, stop)
}
