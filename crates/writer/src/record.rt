// The writer record: a fresh one, whether one fits a buffer, and its numbers after a put.
ghost use Rattle.std.specs.Prelude.{◌≡◌, ◌≤◌};
ghost use Rattle.writer.specs.State.{state_with, fresh_writer, in_buffer, fits, too_large, finished_size};
ghost use Rattle.writer.specs.Put.{back_after, writer_after_put};
ghost use Rattle.writer.specs.Steps.Storing.{SizeWithPre};

use super::{CQDBWriter, Repeats};
use image::{HEAD_SIZE_64, Mode};

// A fresh record for a buffer of `length` bytes.
pub fn fresh_writer(mode: Mode, repeats: Repeats, length: usize) -> CQDBWriter
    ensures { result ≡ fresh_writer mode repeats length }
{
    CQDBWriter {
        mode,
        repeats,
        length: length as u64,
        end: HEAD_SIZE_64,
        entries: 0,
        back: 0,
    }
}

// Whether a size exceeds the buffer or 4,294,967,295.
pub fn too_large(capacity: u64, size: u64) -> bool
    ensures { result ≡ too_large capacity size }
{
    capacity < size || 4294967295 < size
}

// The back size after a put, which may be 2^32.
fn back_after(mode: Mode, back: u32, id: u32) -> u64
    ensures { result ≡ back_after mode back id }
{
    match mode {
        Mode::Twoway => (back as u64).max(id as u64 + 1),
        Mode::Oneway => back as u64,
    }
}

impl CQDBWriter {
    // Whether the record has this buffer's length, and an end from 2,072 to that length. Counts are not compared.
    pub fn in_buffer(&self, buf: &[u8]) -> bool
        ensures { result ≡ in_buffer self.now buf.now }
    {
        self.length == buf.len() as u64 && HEAD_SIZE_64 <= self.end && self.end <= self.length
    }

    // Whether the record fits the buffer.
    pub(super) fn fits(&self, counts: &[u32; 256], buf: &[u8]) -> bool
        ensures { result ≡ fits (state_with self.now counts.now buf.now) }
    {
        self.in_buffer(buf) && serialize::counts::none_above(counts, self.entries)
    }

    // The finished size after a put of an id and a name of n bytes.
    pub fn size_with(&self, n: usize, id: u32) -> u64
        requires { SizeWithPre self.now.end n }
        ensures { result ≡ finished_size (writer_after_put self.now n id) }
    {
        let back = serialize::size::back_in(self.mode, back_after(self.mode, self.back, id));
        self.end + (n as u64 + 9) + 16 * (self.entries as u64 + 1) + 4 * back
    }

    // Makes the record that of after a put of an id and a name of n bytes, where the finished size is no more than
    // 4,294,967,295.
    pub fn count_put(&mut self, n: usize, id: u32)
        requires { finished_size (writer_after_put self.old n id) ≤ 4294967295 }
        ensures { self.new ≡ writer_after_put self.old n id }
    {
        self.end += n as u64 + 9;
        self.entries += 1;
        self.back = back_after(self.mode, self.back, id) as u32;
    }
}
