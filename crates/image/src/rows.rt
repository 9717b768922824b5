// The rows of the head: where each table is, and how many buckets it has.
ghost use Rattle.std.specs.Prelude.{◌+◌, ◌*◌, ◌<◌};
ghost use Rattle.image.specs.Steps.Contracts.{SizeRead};

use super::head::{BUCKET_NUMBERS_AT, ROW_SIZE, TABLE_OFFSETS_AT};
use super::size_or_zero;

// A row: the table's offset and its number of buckets, each 0 where the buffer ends before it.
#[derive(Clone, Copy)]
pub struct Row {
    pub offset: usize,
    pub buckets: usize,
}

impl Row {
    // The row of table t.
    pub fn of(buf: &[u8], t: usize) -> Row
        requires { t < 256 }
        ensures offset { SizeRead buf.now (24 + 8 * t) result.offset }
        ensures buckets { SizeRead buf.now (28 + 8 * t) result.buckets }
    {
        Row {
            offset: size_or_zero(buf, TABLE_OFFSETS_AT + ROW_SIZE * t),
            buckets: size_or_zero(buf, BUCKET_NUMBERS_AT + ROW_SIZE * t),
        }
    }
}
