// The head of an image, and the space behind the entries cleared.
ghost use Rattle.std.specs.Prelude.{◌≡◌, ◌-◌, ◌%◌, ◌≤◌, length, replicate, if◌then◌else◌, nat_eq};
ghost use Rattle.std.proofs.lemmas.List.Edits.{sets};
ghost use Rattle.image.specs.Image.{head_bytes};
ghost use Rattle.serialize.specs.Steps.Contracts.{ClearBytesPre};
ghost use Rattle.serialize.specs.Steps.Written.{RowsWritten};

use image::BYTEORDER_CHECK;
use image::head::{
    BACK_OFFSET_AT, BACK_SIZE_AT, BUCKET_NUMBERS_AT, BYTEORDER_AT, FLAG_AT, ROW_SIZE, SIZE_AT,
    TABLE_OFFSETS_AT,
};
use image::store::store_word;

// The letters CQDB as a word.
const CHUNK_ID: u32 = 0x42445143;

// The first 24 bytes: letters, size, flag word, byte order, back size, back offset.
pub(super) fn write_head(buf: &mut [u8], size: u32, flag: u32, back: u32, back_offset: u32)
    ensures { buf.new ≡ sets buf.old 0 (head_bytes size flag back back_offset) }
{
    image::store_word_clipped(&mut *buf, 0, CHUNK_ID);
    image::store_word_clipped(&mut *buf, SIZE_AT, size);
    image::store_word_clipped(&mut *buf, FLAG_AT, flag);
    image::store_word_clipped(&mut *buf, BYTEORDER_AT, BYTEORDER_CHECK);
    image::store_word_clipped(&mut *buf, BACK_SIZE_AT, back);
    image::store_word_clipped(&mut *buf, BACK_OFFSET_AT, back_offset);
}

// The low 32 bits of a number.
pub(super) fn low(x: u64) -> u32
    ensures { result ≡ x % 4294967296 }
{
    (x % 4294967296) as u32
}

// A table's offset: 0 without entries, otherwise where the tables written so far end.
fn offset_or_zero(count: u64, o: u64) -> u64
    ensures { result ≡ (if nat_eq count 0 then 0 else o) }
{
    if count == 0 { 0 } else { o }
}

// The rows of the 256 tables, of which the first with entries begins at `end`, and where each table begins. One loop
// does both: two loops would cost 3 % of a list of 100 names in one call.
pub(super) fn write_rows(buf: &mut [u8], counts: &[u32; 256], end: u32, places: &mut [u32; 256])
    requires { 2072 ≤ length buf.old }
    ensures { RowsWritten counts.now end buf.old places.old buf.new
        places.new }
{
    let mut o = end as u64;
    for (t, count) in counts.iter().enumerate() {
        let count = *count as u64;
        store_word(
            &mut *buf,
            TABLE_OFFSETS_AT + ROW_SIZE * t,
            low(offset_or_zero(count, o)),
        );
        store_word(&mut *buf, BUCKET_NUMBERS_AT + ROW_SIZE * t, low(2 * count));
        places[t] = low(o);
        o += 16 * count;
    }
}

// Sets the bytes between two places to 0. An internal function for the crates above.
pub fn clear_bytes(buf: &mut [u8], from: usize, to: usize)
    requires { ClearBytesPre buf.old from to }
    ensures { buf.new ≡ sets buf.old from (replicate (to - from) 0) }
{
    buf[from..to].fill(0);
}
