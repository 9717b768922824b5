// The reader. It copies nothing: a part is lent from the file, and an id is put together from its bytes.
ghost use Rattle.std.specs.Prelude.{◌≡◌, ◌+◌, ◌<◌, ◌≤◌, length, get_or};
ghost use Rattle.reader.specs.Slices.{slice};
ghost use Rattle.sheet.specs.SheetReading.{part_end, ids_in, section_at, read_sheet};
ghost use Rattle.sheet.specs.SheetReading.{section_of, section_part, cut_part};
ghost use Rattle.jhash.specs.Outcome.{outcome_of};
ghost use Rattle.sheet.specs.Steps.Contracts.{CountRead};

use super::{SectionPlace, Sheet, Which};
use jhash::refusals::Refusal;
use jhash::word::byte_as_word;

// The 16-bit count at `at`.
fn count_at(file: &[u8], at: usize) -> u32
    requires { at + 2 ≤ length file.now }
    ensures { CountRead file.now at result }
{
    let low = byte_as_word(file[at]);
    let high = byte_as_word(file[at + 1]);
    low + high * 256
}

// The section whose count stands at `at`, or the refusal where the file ends before the section does.
fn section_at(file: &[u8], at: usize) -> Result<SectionPlace, Refusal>
    requires { at ≤ length file.now }
    ensures { outcome_of result ≡ section_at file.now at }
{
    let left = file.len() - at;
    if left < 2 {
        return Err(Refusal::TooFewBytes);
    }
    let count = count_at(file, at);
    if left - 2 < 4 * (count as usize) {
        return Err(Refusal::TooFewBytes);
    }
    Ok(SectionPlace {
        start: at + 2,
        count,
    })
}

// Where a part ends.
fn end_of(p: SectionPlace) -> usize
    requires { part_end p < 18446744073709551616 }
    ensures { result ≡ part_end p }
{
    p.start + 4 * (p.count as usize)
}

// The parts of the three sections, or the refusal.
pub fn read(file: &[u8]) -> Result<Sheet, Refusal>
    ensures { outcome_of result ≡ read_sheet file.now }
{
    let references = section_at(file, 0)?;
    let walls = section_at(file, end_of(references))?;
    let retired = section_at(file, end_of(walls))?;
    if end_of(retired) < file.len() {
        return Err(Refusal::LeftOverBytes);
    }
    Ok(Sheet {
        references,
        walls,
        retired,
    })
}

// The part of the lent file at a place; what of it lies past the end is left out.
pub fn part<'a>(file: &'a [u8], p: SectionPlace) -> &'a [u8]
    ensures { slice result ≡ cut_part (slice file.entry) p }
{
    let all = file.len();
    let start = p.start;
    if all < start {
        return &file[0..0];
    }
    let size = (4 * (p.count as usize)).min(all - start);
    &file[start..start + size]
}

// The place of one of the three.
fn place_of(s: Sheet, which: Which) -> SectionPlace
    ensures { result ≡ section_of s which }
{
    match which {
        Which::References => s.references,
        Which::Walls => s.walls,
        Which::Retired => s.retired,
    }
}

// The part of the lent file that holds a section's ids, empty where the file is refused.
pub fn section<'a>(file: &'a [u8], which: Which) -> &'a [u8]
    ensures { slice result ≡ section_part (slice file.entry) which }
{
    match read(file) {
        Ok(s) => part(file, place_of(s, which)),
        Err(_) => &file[0..0],
    }
}

// The i-th id of a part, counted from 0; 0 past the last.
pub fn id_at(part: &[u8], i: usize) -> u32
    ensures { result ≡ get_or (ids_in part.now) i 0 }
{
    if i < part.len() / 4 {
        image::word_or_zero(part, 4 * i)
    } else {
        0
    }
}
