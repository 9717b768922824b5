// Opening an image (reference `CQDB::new`).
ghost use Rattle.std.specs.Prelude.{◌≡◌, ◌+◌, ◌*◌, ◌^◌, ◌<◌, ◌≤◌, false, ◌&&◌, length, nat_lt};
ghost use Rattle.image.specs.Head.{table_at, table_past_end, back_past_end};
ghost use Rattle.reader.specs.Open.{has_letters, some_past_end, opening};
ghost use Rattle.jhash.specs.Outcome.{outcome_of};
ghost use Rattle.reader.specs.Steps.Tables.{SlacksFit, TableAdded, AllTables};

use super::Image;
use image::BYTEORDER_CHECK;
use image::head::{
    BACK_OFFSET_AT, BACK_SIZE_AT, BUCKET_NUMBERS_AT, BYTEORDER_AT, ROW_SIZE, TABLE_OFFSETS_AT,
};
use jhash::refusals::Refusal;
use jhash::word::word;

// Sums over the tables so far: the halves of their bucket numbers, modulo 2^32, and the bitwise or of their slacks.
#[derive(Clone, Copy)]
struct TableSums {
    num: u32,
    slacks: u64,
}

const NUM_TABLES: usize = 256;

// The slack of a table at `at` with n buckets, in an image of `size` bytes: the size minus the table's end, modulo
// 2^64. No end reaches 2^36, so below 2^63 it is a true difference, and the table ends in the image.
fn slack(size: usize, at: u32, n: u32) -> u64
    ensures { result < 2 ^ 63 → at + 8 * n ≤ size }
{
    (size as u64).wrapping_sub(at as u64 + 8 * (n as u64))
}

// The bitwise or with the slack of one more table. It is never below its operands, so no slack exceeds it.
fn with_slack(slacks: u64, size: usize, at: u32, n: u32) -> u64
    ensures { result < 2 ^ 63 → SlacksFit slacks size at n }
{
    slacks | slack(size, at, n)
}

// The sums over the tables so far and this one.
fn with_table(all: TableSums, size: usize, at: u32, n: u32) -> TableSums
    ensures { TableAdded all size at n result }
{
    TableSums {
        num: all.num.wrapping_add(n / 2),
        slacks: with_slack(all.slacks, size, at, n),
    }
}

impl<'a> Image<'a> {
    // Does the image begin with the letters CQDB?
    fn has_letters(self) -> bool
        ensures { result ≡ has_letters self.entry.bytes.now }
    {
        let bytes = self.bytes;
        (bytes[0] == b'C') & (bytes[1] == b'Q') & (bytes[2] == b'D') & (bytes[3] == b'B')
    }

    // All 256 tables. The loop has no early exit and no 64-bit comparison, so the compiler makes vector code of it.
    fn all_tables(self) -> TableSums
        ensures { AllTables self.entry.bytes.now result }
    {
        let mut all = TableSums { num: 0, slacks: 0 };
        for t in 0..NUM_TABLES {
            all = with_table(
                all,
                self.bytes.len(),
                word(self.bytes, TABLE_OFFSETS_AT + ROW_SIZE * t),
                word(self.bytes, BUCKET_NUMBERS_AT + ROW_SIZE * t),
            );
        }
        all
    }

    // Does table t, with an offset above 0, reach past the end of the image?
    fn past_end(self, t: usize) -> bool
        requires { t < 256 }
        ensures { result ≡ (nat_lt 0 (table_at self.entry.bytes.now t) && table_past_end self.entry.bytes.now t) }
    {
        let at = word(self.bytes, TABLE_OFFSETS_AT + ROW_SIZE * t);
        let n = word(self.bytes, BUCKET_NUMBERS_AT + ROW_SIZE * t);
        (0 < at) & (self.bytes.len() < at as usize + 8 * (n as usize))
    }

    // Does one of the 256 tables, with an offset above 0, reach past the end of the image?
    fn some_past_end_by_each(self) -> bool
        ensures { result ≡ some_past_end self.entry.bytes.now 0 256 }
    {
        (0..NUM_TABLES).any(|t| self.past_end(t))
    }

    // The same, where the bitwise or of the slacks is known. From 2^63 on it decides nothing: a table that reaches past
    // the end may have offset 0.
    fn some_past_end(self, slacks: u64) -> bool
        requires { slacks < 2 ^ 63 → some_past_end self.bytes.now 0 256 ≡ false }
        ensures { result ≡ some_past_end self.entry.bytes.now 0 256 }
    {
        if 9223372036854775808 <= slacks {
            return self.some_past_end_by_each();
        }
        false
    }

    // Does the back array reach past the end of the image?
    pub(crate) fn back_past_end(self) -> bool
        ensures { result ≡ back_past_end self.entry.bytes.now }
    {
        let at = word(self.bytes, BACK_OFFSET_AT) as usize;
        let n = word(self.bytes, BACK_SIZE_AT) as usize;
        self.bytes.len() < at + 4 * n
    }
}

// The number of entries (`num` of cqdb-rs), by the bucket numbers of the head, or the refusal that applies first: 1 for
// too few bytes, 5 for other letters, 6 for another word at 12, 7 for a table that reaches past the end of the image, 8
// for such a back array. The size and flag words are not read, and bytes may follow the image.
pub fn open(image: &[u8]) -> Result<u32, Refusal>
    ensures { outcome_of result ≡ opening image.now }
{
    let Some(image) = Image::new(image) else {
        return Err(Refusal::TooShort);
    };
    if !image.has_letters() {
        return Err(Refusal::WrongLetters);
    }
    if word(image.bytes, BYTEORDER_AT) != BYTEORDER_CHECK {
        return Err(Refusal::WrongByteOrder);
    }
    let all = image.all_tables();
    if image.some_past_end(all.slacks) {
        return Err(Refusal::TableLeaves);
    }
    if 0 < word(image.bytes, BACK_OFFSET_AT) {
        if image.back_past_end() {
            return Err(Refusal::BackLeaves);
        }
    }
    Ok(all.num)
}
