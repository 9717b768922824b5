// Serializing: entries that stand in a buffer become an image, when head, tables and back array are written around
// them.
#![tactic(auto)]

ghost use Rattle.serialize.specs.Steps.Preconditions.{ClosePrecondition};
ghost use Rattle.serialize.specs.Steps.Meeting.{ImageWritten};
ghost use Rattle.serialize.specs.Steps.Written.{BeginPre, FrontWritten, ImageBegun};

use image::Mode;
use tables::fill_all;

pub mod counts; // counts.rt: none_above
pub mod head; // head.rt: clear_bytes
pub mod insert;
pub mod partition; // partition.rt: partition_entry
pub mod size; // size.rt: the finished size and its parts
pub mod tables; // tables.rt: fill_all

// Head and rows of the image of the entries that end at `end`, and where each table begins.
fn write_front(
    mode: Mode,
    end: u64,
    entries: u32,
    back: u32,
    counts: &[u32; 256],
    buf: &mut [u8],
    places: &mut [u32; 256],
)
    requires { BeginPre mode end entries back buf.old }
    ensures { FrontWritten mode end entries back counts.now buf.old places.old
        buf.new places.new }
{
    let size = size::finished_size(mode, end, entries, back);
    let back_size = size::back_in(mode, back as u64);
    let back_offset = size::back_offset(mode, end, entries, back);
    head::write_head(
        &mut *buf,
        size as u32,
        u32::from(mode),
        back_size as u32,
        back_offset as u32,
    );
    head::write_rows(&mut *buf, counts, end as u32, &mut *places);
}

// The image of so many entries that end at `end`, with these table counts and this back size, begun: head and rows
// written, the back array cleared, and in `places` where each table begins. An internal function for the crates above.
pub fn begin_image(
    mode: Mode,
    end: u64,
    entries: u32,
    back: u32,
    counts: &[u32; 256],
    buf: &mut [u8],
    places: &mut [u32; 256],
)
    requires { BeginPre mode end entries back buf.old }
    ensures { ImageBegun mode end entries back counts.now buf.old places.old
        buf.new places.new }
{
    write_front(mode, end, entries, back, counts, &mut *buf, &mut *places);
    let size = size::finished_size(mode, end, entries, back);
    head::clear_bytes(
        &mut *buf,
        end as usize + 16 * (entries as usize),
        size as usize,
    );
}

// Writes the image of the entries that stand from 2,072 to `end`: head and rows, tables and back array. An internal
// function for the crates above, whose callers know what stands in the buffer: that many whole entries, with these
// table counts and this back size (0 if one-way), in a buffer that has room for the image. If it gives false, no two
// entries have equal names.
pub fn write_image(
    mode: Mode,
    end: u64,
    entries: u32,
    back: u32,
    counts: &[u32; 256],
    buf: &mut [u8],
) -> bool
    requires { ClosePrecondition mode end entries back counts.now buf.old }
    ensures { ImageWritten mode end entries back buf.old buf.new result }
{
    let mut places = [0; 256];
    begin_image(mode, end, entries, back, counts, &mut *buf, &mut places);
    let size = size::finished_size(mode, end, entries, back) as usize;
    let back_offset = size::back_offset(mode, end, entries, back) as usize;
    let last = end as usize;
    if !tables::by_tables(counts, entries) {
        return tables::insert_singly(mode, back_offset, &mut *buf, last, entries, size, false);
    }
    partition::partition_entries(mode, back_offset, &mut *buf, &mut places, last, entries);
    fill_all(
        mode,
        back_offset,
        &mut *buf,
        counts,
        last,
        entries,
        size,
        &mut [],
        false,
    )
}
