// Naming an id (reference `to_str`).
ghost use Rattle.std.specs.Prelude.{◌≡◌};
ghost use Rattle.reader.specs.Slices.{slice};
ghost use Rattle.reader.specs.Naming.{no_back, naming, name_slice, name_or, name_given};
ghost use Rattle.reader.specs.Cases.{naming_of, given_of};

use super::{Image, Place};
use image::entries::broken;
use image::head::{BACK_OFFSET_AT, BACK_SIZE_AT};
use jhash::word::word;

// Has the image no back array that can be read?
pub(crate) fn no_back(image: &[u8]) -> bool
    ensures { result ≡ no_back image.now }
{
    let Some(image) = Image::new(image) else {
        return true;
    };
    if word(image.bytes, BACK_OFFSET_AT) == 0 {
        return true;
    }
    image.back_past_end()
}

// The place of an id's name, if it has one.
pub fn to_str(image: &[u8], id: u32) -> Option<Place>
    ensures { naming_of result ≡ naming image.now id }
{
    if no_back(image) {
        return None;
    }
    if word(image, BACK_SIZE_AT) <= id {
        return None;
    }
    let at = word(
        image,
        word(image, BACK_OFFSET_AT) as usize + 4 * (id as usize),
    );
    if at == 0 {
        return None;
    }
    if broken(image, at) {
        return None;
    }
    let entry = at as usize;
    Some(Place {
        start: entry + 8,
        len: word(image, entry + 4) as usize - 1,
    })
}

// The subslice of the image that is an id's name, if it has one.
pub fn name_given<'a>(image: &'a [u8], id: u32) -> Option<&'a [u8]>
    ensures { given_of result ≡ name_given image.now id }
{
    let place = to_str(image, id)?;
    Some(place.of(image))
}

// The subslice of the image that is an id's name, empty if it has none.
pub fn name<'a>(image: &'a [u8], id: u32) -> &'a [u8]
    ensures { slice result ≡ name_slice (slice image.entry) id }
{
    name_or(image, id, &image[0..0])
}

// The subslice of the image that is an id's name, or the placeholder itself if it has none.
pub fn name_or<'a>(image: &'a [u8], id: u32, stand_in: &'a [u8]) -> &'a [u8]
    ensures { slice result ≡ name_or (slice image.entry) id (slice stand_in.entry) }
{
    match to_str(image, id) {
        Some(place) => place.of(image),
        None => stand_in,
    }
}
