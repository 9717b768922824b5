// The image of all names, written straight into the buffer.
ghost use Rattle.std.specs.Prelude.{MatchOption};
ghost use Rattle.build.specs.Steps.Steps.{KeptBehind};
ghost use Rattle.build.specs.Steps.Stores.{WriteListPre, ListWritten};

use super::needs::back_of;
use image::packed::PackedNames;
use image::{HEAD_SIZE, HEAD_SIZE_64, Mode};
use serialize::partition::partition_entry;
use serialize::size::{back_in, back_offset, finished_size};
use serialize::tables::fill_all;

// Writes the image of all names in a buffer that has room for it: the front, then each entry with its pair of hash and
// offset where its table will stand and its offset in the back array, then the tables. Gives its size. With `stop` it
// ends at the first entry that meets one of equal name, and gives none; what the image's bytes then hold is
// unspecified.
pub(crate) fn write_list(
    mode: Mode,
    counts: &[u32; 256],
    hashes: &[u32],
    buf: &mut [u8],
    names: PackedNames,
    ids: &[u32],
    scratch: &mut [u32],
    stop: bool,
) -> Option<u32>
    requires { WriteListPre mode counts.now hashes.now buf.old names.bytes.now names.ends.now ids.now }
    ensures { MatchOption result
        (KeptBehind mode names.entry.bytes.now names.entry.ends.now ids.now buf.old buf.new)
        (ListWritten stop mode buf.old names.entry.bytes.now names.entry.ends.now ids.now buf.new) }
{
    let n = names.ends.len();
    let entries = n as u32;
    let end = HEAD_SIZE_64 + 9 * (n as u64) + names.ends[n - 1];
    let back = back_in(mode, back_of(&ids[..n])) as u32;
    let size = finished_size(mode, end, entries, back);
    let back_at = back_offset(mode, end, entries, back) as usize;
    let mut places = [0; 256];
    serialize::begin_image(mode, end, entries, back, counts, &mut *buf, &mut places);
    let mut at = HEAD_SIZE;
    for i in 0..n {
        let name = names.name(i);
        let id = ids[i];
        writer::entry::store(&mut *buf, at, name, id);
        partition_entry(
            mode,
            back_at,
            &mut *buf,
            &mut places,
            at as u32,
            id,
            hashes[i],
        );
        at += 9 + name.len();
    }
    let image = &mut buf[..size as usize];
    let met = fill_all(
        mode,
        back_at,
        &mut *image,
        counts,
        end as usize,
        entries,
        size as usize,
        &mut *scratch,
        stop,
    );
    if stop & met {
        return None;
    }
    Some(size as u32)
}
