// Where the words of the head stand: 01, "The image record".
pub const SIZE_AT: usize = 4;

pub const FLAG_AT: usize = 8;

pub const BYTEORDER_AT: usize = 12;

pub const BACK_SIZE_AT: usize = 16;

pub const BACK_OFFSET_AT: usize = 20;

// The rows of the tables, 8 bytes each: the table's offset at 24 + 8t, its number of buckets at 28 + 8t.
pub const TABLE_OFFSETS_AT: usize = 24;

pub const BUCKET_NUMBERS_AT: usize = 28;

pub const ROW_SIZE: usize = 8;
