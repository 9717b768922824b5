// Whether an image is canonical (02 (ix)): exactly what some puts produce, with no byte after it. The call needs no
// memory but the image: every part of it is checked in place.
#![tactic(auto)]

ghost use Rattle.std.specs.Prelude.{◌≡◌};
ghost use Rattle.jhash.specs.Outcome.{value};
ghost use Rattle.image.specs.Image.{back_in};
ghost use Rattle.reader.specs.Open.{opening};
ghost use Rattle.canonical.specs.Canonical.{counted, canonical};
ghost use Rattle.canonical.specs.Steps.Checks.{body_ok};
ghost use Rattle.canonical.specs.Steps.Contracts.{CheckBodyPre};

use entries::check_entries;
use image::head::{BACK_OFFSET_AT, BACK_SIZE_AT, FLAG_AT, SIZE_AT};
use image::{HEAD_SIZE, Mode, size_or_zero, word_or_zero};
use tables::{check_rows, count_used, counts_match, offset_or_zero};

mod entries; // entries.rt: one walk over the entries, each compared with its bucket and its back word
mod tables; // tables.rt: the rows of the head, and the tables

// The back size that an image has by its mode, if that of its entries is `back`.
fn back_for(mode: Mode, back: u64) -> u64
    ensures { result ≡ back_in mode back }
{
    match mode {
        Mode::Twoway => back,
        Mode::Oneway => 0,
    }
}

// Is everything after the head valid, if the entries end at `end`? The rows are checked first: a table is read only if
// its row has the right offset, so no byte is read as part of two tables. Each back word is the offset of its id's
// last entry exactly if none is below the offset of an entry of its id, and as many back words are above 0 as there
// are entries whose offset is their id's back word.
fn check_body(image: &[u8], mode: Mode, n: u32, end: usize, back: usize) -> bool
    requires { CheckBodyPre image.now mode end back }
    ensures { result ≡ body_ok image.now n end back }
{
    if !check_rows(image, end) {
        return false;
    }
    let o = end + 16 * (n as usize);
    let mut counts = [0; 256];
    let Some(found) = check_entries(image, end, n, mode, o, &mut counts) else {
        return false;
    };
    if !counts_match(image, &counts) {
        return false;
    }
    if back as u64 != back_for(mode, found.back) {
        return false;
    }
    match mode {
        Mode::Twoway => count_used(image, o, back) as u64 == found.lasts,
        Mode::Oneway => true,
    }
}

// Is an image that opens, with n entries, canonical? Its size says where the entries end: 16 bytes of tables for each
// entry and 4 for each back word follow them.
fn check_opened(image: &[u8], n: u32) -> bool
    requires { opening image.now ≡ value n }
    ensures { result ≡ canonical image.now }
{
    let size = size_or_zero(image, SIZE_AT);
    if size != image.len() {
        return false;
    }
    let Ok(mode) = Mode::try_from(word_or_zero(image, FLAG_AT)) else {
        return false;
    };
    let back = size_or_zero(image, BACK_SIZE_AT);
    let behind = 16 * (n as usize) + 4 * back;
    if size < HEAD_SIZE + behind {
        return false;
    }
    let end = size - behind;
    if size_or_zero(image, BACK_OFFSET_AT) != offset_or_zero(back, end + 16 * (n as usize)) {
        return false;
    }
    check_body(image, mode, n, end, back)
}

// How many entries opening counts, 0 if it refuses.
pub fn entry_count(image: &[u8]) -> u32
    ensures { result ≡ counted (opening image.now) }
{
    reader::open(image).unwrap_or(0)
}

// Are these bytes the image that some list of puts, one-way or two-way, of names without a zero byte, closes to?
pub fn is_canonical(image: &[u8]) -> bool
    ensures { result ≡ canonical image.now }
{
    let Ok(n) = reader::open(image) else {
        return false;
    };
    check_opened(image, n)
}
