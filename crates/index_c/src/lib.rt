// The index for C: the record is lent in place, as four numbers and two sizes; the 256 table counts, the buffer and the
// slots are lent, too. A record whose mode or choice of repeats is neither 0 nor 1 is no record of 01 and fits no
// buffer. This crate is compiled by itself, so that hash, probe and store have one caller each and are inlined
// (docs/DECISIONS.md, "Why several export crates?").
#![tactic(auto)]

ghost use Rattle.std.specs.Prelude.{◌≡◌, length};
ghost use Rattle.jhash.specs.Outcome.{refusal_of};
ghost use Rattle.writer.specs.Put.{entry_of};
ghost use Rattle.writer.specs.CRecord.{lent_state, record_in, writer_read};
ghost use Rattle.index_c.specs.IndexC.{index_words, PutIndexedHeld, IndexedHeld};

use jhash::refusals::{Refusal, refusal_number};
use writer::CQDBWriter;
use writer::c_record::record_in;

// How many words to lend for an index of this many names: two slots a name, two words a slot; the largest number where
// that is more than a size can be.
#[unsafe(no_mangle)]
pub extern "C" fn cqdb_index_words(names: usize) -> usize
    ensures { result ≡ index_words names }
{
    names.saturating_mul(4)
}

// The writer's record that is lent in place.
fn writer_in(numbers: &[u32; 4], sizes: &[u64; 2]) -> Result<CQDBWriter, Refusal>
    ensures { result ≡ writer_read (record_in numbers.now sizes.now) }
{
    CQDBWriter::try_from(record_in(numbers, sizes))
}

// Makes the index of the entries in the buffer by the record that is lent in place.
fn index_in(
    numbers: &[u32; 4],
    sizes: &[u64; 2],
    counts: &[u32; 256],
    buf: &[u8],
    slots: &mut [u32],
) -> Result<(), Refusal>
    ensures { IndexedHeld (lent_state numbers.now sizes.now counts.now buf.now)
        slots.old (refusal_of result) slots.new }
{
    let w = writer_in(numbers, sizes)?;
    index::index(&w, counts, buf, slots)
}

// Makes the index of the entries in the buffer. Gives 0, or refusal 2, 4 or 24, and nothing is written.
#[unsafe(no_mangle)]
pub extern "C" fn cqdb_index_parts(
    numbers: &[u32; 4],
    sizes: &[u64; 2],
    counts: &[u32; 256],
    buf: &[u8],
    slots: &mut [u32],
) -> u32
    ensures { IndexedHeld (lent_state numbers.now sizes.now counts.now buf.now)
        slots.old result slots.new }
{
    refusal_number(index_in(numbers, sizes, counts, buf, slots))
}

// Appends an entry by the record that is lent in place. The three numbers that a put changes are stored after it,
// whether it was refused or not.
fn put_indexed_in(
    numbers: &mut [u32; 4],
    sizes: &mut [u64; 2],
    counts: &mut [u32; 256],
    buf: &mut [u8],
    slots: &mut [u32],
    name: &[u8],
    id: u32,
) -> Result<(), Refusal>
    ensures { length numbers.old ≡ 4
        → length sizes.old ≡ 2
        → PutIndexedHeld
        (lent_state numbers.old sizes.old counts.old buf.old)
        slots.old (entry_of name.now id) (refusal_of result)
        (lent_state numbers.new sizes.new counts.new buf.new)
        slots.new }
{
    let mut w = writer_in(&*numbers, &*sizes)?;
    let answer = index::put_indexed(&mut w, counts, buf, slots, name, id);
    numbers[2] = w.entries;
    numbers[3] = w.back;
    sizes[1] = w.end;
    answer
}

// Appends an entry, raises its count and with repeats off stores its slot; or refusal 2, 13, 16, 3 or 24, and nothing
// changes. With repeats on no slot is looked at, and none is needed. A record
// by value, in and out, costs 6 ns a put, since its words are stored one by one and loaded four at a time.
#[unsafe(no_mangle)]
pub extern "C" fn cqdb_put_indexed_parts(
    numbers: &mut [u32; 4],
    sizes: &mut [u64; 2],
    counts: &mut [u32; 256],
    buf: &mut [u8],
    slots: &mut [u32],
    name: &[u8],
    id: u32,
) -> u32
    ensures { length numbers.old ≡ 4
        → length sizes.old ≡ 2
        → PutIndexedHeld
        (lent_state numbers.old sizes.old counts.old buf.old)
        slots.old (entry_of name.now id) result
        (lent_state numbers.new sizes.new counts.new buf.new)
        slots.new }
{
    refusal_number(put_indexed_in(numbers, sizes, counts, buf, slots, name, id))
}
