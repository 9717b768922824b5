// Writing: begin, put and close over one lent buffer, for every writer record and every buffer.
#![tactic(auto)]

ghost use Rattle.std.specs.Prelude.{◌≡◌, length};
ghost use Rattle.jhash.specs.Outcome.{outcome_of, refusal_of};
ghost use Rattle.writer.specs.State.{state_with, beginning, counts_begun};
ghost use Rattle.writer.specs.Put.{put_refusal, appended, after_put, entry_of};
ghost use Rattle.writer.specs.Close.{close_refusal, closing, after_close};
ghost use Rattle.writer.specs.Grown.{grown_refusal, grown_writer};
ghost use Rattle.writer.specs.Steps.Closing.{WriteClosedPost};

use image::{HEAD_SIZE, Mode};
use jhash::refusals::Refusal;
use serialize::size::finished_size;

pub mod c_record; // c_record.rt: the writer record as C has it
mod check;
pub mod entry; // entry.rt: an entry stored and appended
pub mod numbers; // numbers.rt: the numbers by which C names a mode and the choice of repeats
pub mod record; // record.rt: the numbers of the record after a put

// 02 (viii)'s choice of repeats: with repeats off a writer refuses a name that it already holds.
#[derive(Clone, Copy, Debug, PartialEq, Eq)]
pub enum Repeats {
    Off,
    On,
}

// The writer record (`CQDBWriter` of cqdb-rs), but for its 256 table counts, which are lent apart: the mode, the
// choice of repeats, the buffer's length, the end of the entries, the number of entries and the back size.
#[derive(Clone, Copy)]
pub struct CQDBWriter {
    pub mode: Mode,
    pub repeats: Repeats,
    pub length: u64,
    pub end: u64,
    pub entries: u32,
    pub back: u32,
}

// A fresh record for a buffer (`with_flag` of cqdb-rs). Changes no byte of the buffer.
pub fn begin(
    mode: Mode,
    repeats: Repeats,
    counts: &mut [u32; 256],
    buf: &[u8],
) -> Result<CQDBWriter, Refusal>
    ensures answer { outcome_of result ≡ beginning mode repeats (length buf.now) }
    ensures counts { counts.new ≡ counts_begun (length buf.now) counts.old }
{
    if buf.len() < HEAD_SIZE {
        return Err(Refusal::TooShort);
    }
    *counts = [0; 256];
    Ok(record::fresh_writer(mode, repeats, buf.len()))
}

impl CQDBWriter {
    // Whether a put is due, or why it is refused. All of put's decision stands here.
    fn check_put(
        &self,
        counts: &[u32; 256],
        buf: &[u8],
        name: &[u8],
        id: u32,
    ) -> Result<(), Refusal>
        ensures { refusal_of result ≡ put_refusal (state_with self.now counts.now buf.now) (entry_of name.now id) }
    {
        if !self.fits(counts, buf) {
            return Err(Refusal::Unfit);
        }
        if image::zero::has_zero(name) {
            return Err(Refusal::ZeroByte);
        }
        check::check_earlier(self, counts, buf, name)?;
        if 4294967295 <= name.len() {
            return Err(Refusal::NoRoom);
        }
        if record::too_large(self.length, self.size_with(name.len(), id)) {
            return Err(Refusal::NoRoom);
        }
        Ok(())
    }

    // What an accepted put does: it hashes the name and appends its entry.
    fn hash_and_append(&mut self, counts: &mut [u32; 256], buf: &mut [u8], name: &[u8], id: u32)
        requires { put_refusal (state_with self.old counts.old buf.old) (entry_of name.now id) ≡ 0 }
        ensures { state_with self.new counts.new buf.new
            ≡ appended (state_with self.old counts.old buf.old) (entry_of name.now id) }
    {
        if let Ok(h) = jhash::name_hash(name) {
            self.append(counts, buf, name, id, h);
        }
    }

    // Appends an entry, or is refused and changes nothing.
    pub fn put(
        &mut self,
        counts: &mut [u32; 256],
        buf: &mut [u8],
        name: &[u8],
        id: u32,
    ) -> Result<(), Refusal>
        ensures answer { refusal_of result ≡ put_refusal (state_with self.old counts.old buf.old)
            (entry_of name.now id) }
        ensures leaves { state_with self.new counts.new buf.new
            ≡ after_put (state_with self.old counts.old buf.old) (entry_of name.now id) }
    {
        self.check_put(&*counts, &*buf, name, id)?;
        self.hash_and_append(counts, buf, name, id);
        Ok(())
    }

    // Takes the length of a buffer that has grown, whose entries stand where they stood; a shorter buffer is refused.
    pub fn grown(&mut self, length: u64) -> Result<(), Refusal>
        ensures answer { refusal_of result ≡ grown_refusal self.old length }
        ensures leaves { self.new ≡ grown_writer self.old length }
    {
        if length < self.length {
            return Err(Refusal::Unfit);
        }
        self.length = length;
        Ok(())
    }

    // Whether a close is due, or why it is refused. Changes nothing.
    pub fn check_close(&self, counts: &[u32; 256], buf: &[u8]) -> Result<(), Refusal>
        ensures { refusal_of result ≡ close_refusal (state_with self.now counts.now buf.now) }
    {
        if !self.fits(counts, buf) {
            return Err(Refusal::Unfit);
        }
        let size = finished_size(self.mode, self.end, self.entries, self.back);
        if record::too_large(self.length, size) {
            return Err(Refusal::Inconsistent);
        }
        check::check_consistent(self, counts, buf)
    }

    // Writes the image of a record that close accepts, and gives its size.
    pub fn write_closed(&self, counts: &[u32; 256], buf: &mut [u8]) -> u32
        requires { close_refusal (state_with self.now counts.now buf.old) ≡ 0 }
        ensures { WriteClosedPost (state_with self.now counts.now buf.old) result buf.new }
    {
        let image_mode = self.mode;
        let size = finished_size(image_mode, self.end, self.entries, self.back);
        serialize::write_image(image_mode, self.end, self.entries, self.back, counts, buf);
        size as u32
    }

    // Writes head, tables and back array into the lent buffer, and gives the image's size. May be called often.
    pub fn close(&self, counts: &[u32; 256], buf: &mut [u8]) -> Result<u32, Refusal>
        ensures answer { outcome_of result ≡ closing (state_with self.now counts.now buf.old) }
        ensures leaves { state_with self.now counts.now buf.new
            ≡ after_close (state_with self.now counts.now buf.old) }
    {
        self.check_close(counts, &*buf)?;
        Ok(self.write_closed(counts, buf))
    }
}
