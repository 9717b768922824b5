// The writer record as C has it, but for the 256 table counts, which are lent apart.
ghost use Rattle.std.specs.Prelude.{◌≡◌};
ghost use Rattle.writer.specs.CRecord.{writer_of, writer_read, record_of, record_in};

use super::numbers::{mode_of, repeats_of};
use super::{CQDBWriter, Repeats};
use image::Mode;
use jhash::refusals::Refusal;

// The mode (0 two-way, 1 one-way), the choice of repeats (0 off, 1 on), the number of entries, the back size, the
// buffer's length and the end of the entries.
#[repr(C)]
#[derive(Clone, Copy)]
pub struct Record {
    pub mode: u32,
    pub repeats: u32,
    pub entries: u32,
    pub back: u32,
    pub length: u64,
    pub end: u64,
}

// The record that is lent in place: mode, repeats, entries and back size; then the buffer's length and the end of the
// entries.
pub fn record_in(numbers: &[u32; 4], sizes: &[u64; 2]) -> Record
    ensures { result ≡ record_in numbers.now sizes.now }
{
    Record {
        mode: numbers[0],
        repeats: numbers[1],
        entries: numbers[2],
        back: numbers[3],
        length: sizes[0],
        end: sizes[1],
    }
}

// The record as the writer has it, whatever its numbers are.
pub fn writer_of(r: Record) -> CQDBWriter
    ensures { result ≡ writer_of r }
{
    CQDBWriter {
        mode: mode_of(r.mode),
        repeats: repeats_of(r.repeats),
        length: r.length,
        end: r.end,
        entries: r.entries,
        back: r.back,
    }
}

// The record as the writer has it; a record whose mode or choice of repeats is neither 0 nor 1 is none.
impl TryFrom<Record> for CQDBWriter {
    type Error = Refusal;

    ghost try_from_gives = { λ r w. w ≡ writer_read r };

    fn try_from(r: Record) -> Result<CQDBWriter, Refusal> {
        let mode = Mode::try_from(r.mode)?;
        let repeats = Repeats::try_from(r.repeats)?;
        Ok(CQDBWriter {
            mode,
            repeats,
            length: r.length,
            end: r.end,
            entries: r.entries,
            back: r.back,
        })
    }
}

// The writer's record as C has it.
impl From<CQDBWriter> for Record {
    ghost from_gives = { λ w r. r ≡ record_of w };

    fn from(w: CQDBWriter) -> Record {
        Record {
            mode: u32::from(w.mode),
            repeats: u32::from(w.repeats),
            entries: w.entries,
            back: w.back,
            length: w.length,
            end: w.end,
        }
    }
}
