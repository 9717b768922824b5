// Reading: open, look up, name, walk, on every slice of bytes. No call of a user has a `requires`, and each answers
// what 01 fixes for the bytes that it is lent, whether open accepts them or not. The steps of a search (`Image::table`,
// `search_from`, `probe_bucket`, `probe_entry`, `bucket_after`) are internal functions, public for the crates whose
// searches differ; so is `Place::of`, for those whose names end elsewhere.
#![tactic(auto)]

ghost use Rattle.std.specs.Prelude.{◌≡◌, ◌+◌, ◌<◌, ◌≤◌, length, MatchOption};
ghost use Rattle.reader.specs.Slices.{slice, subslice};

pub mod opening; // opening.rt: open
pub mod lookup; // lookup.rt: to_id
pub mod naming; // naming.rt: to_str, name_given, name, name_or
pub mod id_walk; // id_walk.rt: iter, next, size_hint

use image::HEAD_SIZE;
pub use lookup::to_id;
pub use naming::{name, name_given, name_or, to_str};
pub use opening::open;

// Bytes that are long enough for a head.
#[derive(Clone, Copy)]
pub struct Image<'a> {
    pub bytes: &'a [u8],
    pub ghost has_head: { 2072 ≤ length bytes.now },
}

impl<'a> Image<'a> {
    // The bytes as an image, unless they are too few for a head.
    pub fn new(bytes: &'a [u8]) -> Option<Image<'a>>
        ensures { MatchOption result (length bytes.now < 2072) (λ i. i.bytes ≡ bytes.entry) }
    {
        if bytes.len() < HEAD_SIZE {
            return None;
        }
        Some(Image { bytes })
    }
}

// An entry with the wanted name: its id and its offset.
#[derive(Clone, Copy)]
pub struct Hit {
    pub id: u32,
    pub offset: u32,
}

// What a lookup answers: the id and the offset of the entry that it finds, if there is one, and the number of buckets
// that the search reads, the deciding one included.
#[derive(Clone, Copy)]
pub struct ToId {
    pub hit: Option<Hit>,
    pub buckets: u32,
}

// A table: its offset and its bucket number.
#[derive(Clone, Copy)]
pub struct Table {
    pub at: u32,
    pub n: u32,
}

// What a search does at a bucket: it passes it, ends with nothing, or ends with an entry that has the name.
#[derive(Clone, Copy)]
pub enum Probe {
    Pass,
    Ends,
    Hit(Hit),
}

// The place of a name in the image.
#[derive(Clone, Copy)]
pub struct Place {
    pub start: usize,
    pub len: usize,
}

impl Place {
    // The subslice of the image that is at the place.
    pub fn of<'a>(self, image: &'a [u8]) -> &'a [u8]
        requires { self.start + self.len ≤ length image.now }
        ensures { slice result ≡ subslice (slice image.entry) self.start self.len }
    {
        &image[self.start..self.start + self.len]
    }
}

// A walk over the ids; `next` is the id of its next step.
#[derive(Clone, Copy)]
pub struct Iter {
    pub next: u32,
}

// A step of a walk: the id, the place of its name, and the walk to continue with.
#[derive(Clone, Copy)]
pub struct Item {
    pub id: u32,
    pub place: Place,
    pub iter: Iter,
}
