// The writer: three lent lists of ids into a lent buffer.
ghost use Rattle.std.specs.Prelude.{◌≡◌, ◌+◌, ◌*◌, ◌≤◌, length};
ghost use Rattle.std.proofs.lemmas.List.Edits.{sets};
ghost use Rattle.sheet.specs.Format.{id_bytes};
ghost use Rattle.sheet.specs.SheetWriting.{section_lists, writing, after_writing};
ghost use Rattle.jhash.specs.Outcome.{outcome_of};
ghost use Rattle.sheet.specs.Steps.Contracts.{PutSectionPre, SectionStored};

use jhash::refusals::Refusal;

// The bytes of ids stored from `at` on.
fn put_ids(buf: &mut [u8], at: usize, ids: &[u32])
    requires { at + 4 * length ids.now ≤ length buf.old }
    ensures { buf.new ≡ sets buf.old at (id_bytes ids.now) }
{
    for (i, id) in ids.iter().enumerate() {
        image::store_word_clipped(&mut *buf, at + 4 * i, *id);
    }
}

// A section stored from `at` on: the count and the ids. Gives where it ends.
fn put_section(buf: &mut [u8], at: usize, ids: &[u32]) -> usize
    requires { PutSectionPre buf.old at ids.now }
    ensures { SectionStored buf.old at ids.now buf.new result }
{
    let count = ids.len();
    let low = (count % 256) as u8;
    let high = (count / 256 % 256) as u8;
    buf[at] = low;
    buf[at + 1] = high;
    put_ids(&mut *buf, at + 2, ids);
    at + 2 + 4 * count
}

// Writes the three sections from the buffer's front, and gives the length.
pub fn write(
    buf: &mut [u8],
    references: &[u32],
    walls: &[u32],
    retired: &[u32],
) -> Result<usize, Refusal>
    ensures answer { outcome_of result ≡ writing (length buf.old)
        (section_lists references.now walls.now retired.now) }
    ensures leaves { buf.new
        ≡ after_writing buf.old
        (section_lists references.now walls.now retired.now) }
{
    let n = references.len();
    let m = walls.len();
    let k = retired.len();
    if 65535 < n.max(m).max(k) {
        return Err(Refusal::SheetTooLarge);
    }
    let size = 6 + 4 * (n + m + k);
    if buf.len() < size {
        return Err(Refusal::SheetTooLarge);
    }
    let walls_at = put_section(&mut *buf, 0, references);
    let retired_at = put_section(&mut *buf, walls_at, walls);
    put_section(&mut *buf, retired_at, retired);
    Ok(size)
}
