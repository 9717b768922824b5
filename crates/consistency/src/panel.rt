// The panel's reading of names (02 (v)): a name up to its first zero byte, as a C string is read; and whether it is the
// whole name.
ghost use Rattle.std.specs.Prelude.{◌≡◌, ◌+◌, ◌<◌, ◌≤◌, length, take, drop};
ghost use Rattle.image.specs.Zero.{before_zero};
ghost use Rattle.reader.specs.Slices.{slice};
ghost use Rattle.consistency.specs.Panel.{panel, panel_slice, agree_on, readings_agree};
ghost use Rattle.reader.specs.Cases.{naming_of};

use image::zero::length_before_zero;
use reader::id_walk::{iter, size_hint};
use reader::{Place, to_str};

// How many bytes of the name at a place the panel shows: those before its first zero byte.
fn shown_length(image: &[u8], place: Place) -> usize
    requires { place.start + place.len ≤ length image.now }
    ensures { result ≡ length (before_zero (take place.len (drop place.start image.now))) }
{
    length_before_zero(place.of(image))
}

// The place of an id's name up to its first zero byte, if it has a name. A name that begins with a zero byte has a
// place of length 0.
pub fn panel_place(image: &[u8], id: u32) -> Option<Place>
    ensures { naming_of result ≡ panel image.now id }
{
    let place = to_str(image, id)?;
    Some(Place {
        start: place.start,
        len: shown_length(image, place),
    })
}

// The subslice of the image that is an id's name up to its first zero byte, empty if it has none.
pub fn panel<'a>(image: &'a [u8], id: u32) -> &'a [u8]
    ensures { slice result ≡ panel_slice (slice image.entry) id }
{
    match panel_place(image, id) {
        Some(place) => place.of(image),
        None => &image[0..0],
    }
}

// Do both readings agree on the id? On one without a name they do.
fn agree_on(image: &[u8], id: u32) -> bool
    ensures { result ≡ agree_on image.now id }
{
    match to_str(image, id) {
        Some(place) => shown_length(image, place) == place.len,
        None => true,
    }
}

// Do both readings agree on every id below back size? Where no id can have a name they do, and none is read.
pub fn readings_agree(image: &[u8]) -> bool
    ensures { result ≡ readings_agree image.now }
{
    (0..size_hint(image, iter())).all(|id| agree_on(image, id))
}
