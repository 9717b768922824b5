// Writing, for C. The record is lent in place, as four numbers and two sizes; the 256 table counts and the buffer are
// lent, too. A record whose mode or choice of repeats is neither 0 nor 1 is no record of 01 and fits no buffer.
ghost use Rattle.std.specs.Prelude.{◌≡◌, length};
ghost use Rattle.writer.specs.Put.{entry_of};
ghost use Rattle.jhash.specs.Outcome.{outcome_of};
ghost use Rattle.writer.specs.CRecord.{record_in, lent_state};
ghost use Rattle.cqdb_c.specs.Writing.{beginning_of, number_in, lent_writer, left_by_begin, put_number, left_by_put};
ghost use Rattle.cqdb_c.specs.Writing.{closing_of, refusal_in, size_in, left_by_close, close_answer_of};
ghost use Rattle.cqdb_c.specs.Grown.{grown_number, record_grown};
ghost use Rattle.cqdb_c.specs.SizeWith.{size_with};

use image::Mode;
use jhash::refusals::{Refusal, refusal_number};
use writer::c_record::{Record, record_in, writer_of};
use writer::{CQDBWriter, Repeats};

// What close answers: the refusal's number, 0 when accepted; the image's size, 0 when refused. The C interface: a
// struct of words in place of a Result.
#[repr(C)]
#[derive(Clone, Copy)]
pub struct CloseAnswer {
    pub refusal: u32,
    pub size: u32,
}

// Makes the writer, which is lent in place, fresh for a buffer; or refusal 1, or 2 for a mode or a choice of repeats
// that is neither 0 nor 1, and then the writer stays as it was.
#[unsafe(no_mangle)]
pub extern "C" fn cqdb_begin_parts(
    mode: u32,
    repeats: u32,
    numbers: &mut [u32; 4],
    sizes: &mut [u64; 2],
    counts: &mut [u32; 256],
    buf: &[u8],
) -> u32
    ensures answer { result ≡ number_in (beginning_of mode repeats (length buf.now)) }
    ensures leaves { lent_writer numbers.new sizes.new counts.new
        ≡ left_by_begin mode repeats (length buf.now)
        (lent_writer numbers.old sizes.old counts.old) }
{
    let Ok(mode) = Mode::try_from(mode) else {
        return u32::from(Refusal::Unfit);
    };
    let Ok(repeats) = Repeats::try_from(repeats) else {
        return u32::from(Refusal::Unfit);
    };
    match writer::begin(mode, repeats, counts, buf) {
        Ok(w) => {
            let fresh = Record::from(w);
            *numbers = [fresh.mode, fresh.repeats, fresh.entries, fresh.back];
            *sizes = [fresh.length, fresh.end];
            0
        }
        Err(refusal) => u32::from(refusal),
    }
}

// Appends an entry and raises the counts; or refusal 2, 13, 4, 16 or 3.
#[unsafe(no_mangle)]
pub extern "C" fn cqdb_put_parts(
    numbers: &mut [u32; 4],
    sizes: &mut [u64; 2],
    counts: &mut [u32; 256],
    buf: &mut [u8],
    name: &[u8],
    id: u32,
) -> u32
    ensures answer { result ≡ put_number
        (lent_state numbers.old sizes.old counts.old buf.old)
        (entry_of name.now id) }
    ensures leaves { length numbers.old ≡ 4
        → length sizes.old ≡ 2
        → lent_state numbers.new sizes.new counts.new buf.new
        ≡ left_by_put
        (lent_state numbers.old sizes.old counts.old buf.old)
        (entry_of name.now id) }
{
    let Ok(mut w) = CQDBWriter::try_from(record_in(&*numbers, &*sizes)) else {
        return u32::from(Refusal::Unfit);
    };
    let done = w.put(counts, buf, name, id);
    numbers[2] = w.entries;
    numbers[3] = w.back;
    sizes[1] = w.end;
    refusal_number(done)
}

// What close answers, as numbers.
impl From<Result<u32, Refusal>> for CloseAnswer {
    ghost from_gives = { λ r a. a ≡ close_answer_of (outcome_of r) };

    fn from(closed: Result<u32, Refusal>) -> CloseAnswer {
        match closed {
            Ok(size) => CloseAnswer { refusal: 0, size },
            Err(refusal) => CloseAnswer {
                refusal: u32::from(refusal),
                size: 0,
            },
        }
    }
}

// Writes head, tables and back array, and gives the image's size; or refusal 2 or 4.
#[unsafe(no_mangle)]
pub extern "C" fn cqdb_close_parts(
    numbers: &[u32; 4],
    sizes: &[u64; 2],
    counts: &[u32; 256],
    buf: &mut [u8],
) -> CloseAnswer
    ensures refusal { result.refusal ≡ refusal_in
        (closing_of
        (lent_state numbers.now sizes.now counts.now buf.old)) }
    ensures size { result.size ≡ size_in
        (closing_of
        (lent_state numbers.now sizes.now counts.now buf.old)) }
    ensures leaves { lent_state numbers.now sizes.now counts.now buf.new
        ≡ left_by_close
        (lent_state numbers.now sizes.now counts.now buf.old) }
{
    let r = record_in(numbers, sizes);
    let Ok(w) = CQDBWriter::try_from(r) else {
        return CloseAnswer::from(Err(Refusal::Unfit));
    };
    // Both branches make the same call. With a single one the back end of the compiler places the tests above before
    // the code that takes the stack; that code, for more than eight pages, overwrites a register that holds the mode.
    // tests/archive-parts looks for this in every function.
    if r.mode == 0 {
        return CloseAnswer::from(w.close(counts, buf));
    }
    CloseAnswer::from(w.close(counts, buf))
}

// Takes the new length of a buffer that has grown; or refusal 2 where it has become shorter.
#[unsafe(no_mangle)]
pub extern "C" fn cqdb_grown_parts(numbers: &[u32; 4], sizes: &mut [u64; 2], longer: u64) -> u32
    ensures answer { result ≡ grown_number (record_in numbers.now sizes.old) longer }
    ensures leaves { length sizes.old ≡ 2
        → record_in numbers.now sizes.new
        ≡ record_grown (record_in numbers.now sizes.old) longer }
{
    let Ok(mut w) = CQDBWriter::try_from(record_in(numbers, &*sizes)) else {
        return u32::from(Refusal::Unfit);
    };
    let done = w.grown(longer);
    sizes[0] = w.length;
    refusal_number(done)
}

// The finished size after a put of an id and a name of n bytes; the largest number where no image is as large.
#[unsafe(no_mangle)]
pub extern "C" fn cqdb_size_with_parts(
    numbers: &[u32; 4],
    sizes: &[u64; 2],
    n: usize,
    id: u32,
) -> u64
    ensures { result ≡ size_with (record_in numbers.now sizes.now) n id }
{
    let r = record_in(numbers, sizes);
    if 9223372036854775808 <= r.end {
        return 18446744073709551615;
    }
    if 4294967295 <= n {
        return 18446744073709551615;
    }
    // No mode or choice of repeats is refused here: every mode but 0 counts as one-way, and the choice changes no size.
    writer_of(r).size_with(n, id)
}
