// A view of an image (reference `CQDB`): a struct around the slice, and thin calls of the functions on plain slices,
// each with that function's promise. A view can be copied, and its calls take it by value.
#![tactic(auto)]

ghost use Rattle.std.specs.Prelude.{◌≡◌};
ghost use Rattle.jhash.specs.Outcome.{outcome_of};
ghost use Rattle.reader.specs.Open.{opening};
ghost use Rattle.reader.specs.Lookup.{lookup};
ghost use Rattle.reader.specs.Slices.{slice};
ghost use Rattle.reader.specs.Naming.{naming, name_slice};
ghost use Rattle.reader.specs.IdWalk.{step};
ghost use Rattle.consistency.specs.Home.{home};
ghost use Rattle.reader.specs.Cases.{lookup_of, naming_of, stepped_of};
ghost use Rattle.view.specs.Num.{num_of};

use jhash::refusals::Refusal;
use reader::{Item, Iter, Place, ToId};

#[derive(Clone, Copy)]
pub struct CQDB<'a> {
    pub image: &'a [u8],
}

// The number of entries (`num` of cqdb-rs) that opening answers, 0 where it refuses: what `CQDB::num` calls.
pub fn num_of(image: &[u8]) -> u32
    ensures { result ≡ num_of (opening image.now) }
{
    reader::open(image).unwrap_or(0)
}

impl<'a> CQDB<'a> {
    // A view of the slice, whatever its bytes. Whether they are an image is what `open` answers.
    pub fn new(image: &'a [u8]) -> CQDB<'a>
        ensures { result.image ≡ image.entry }
    {
        CQDB { image }
    }

    // The number of entries, or why opening is refused.
    pub fn open(self) -> Result<u32, Refusal>
        ensures { outcome_of result ≡ opening self.entry.image.now }
    {
        reader::open(self.image)
    }

    // The number of entries that opening answers, 0 where it refuses.
    pub fn num(self) -> u32
        ensures { result ≡ num_of (opening self.entry.image.now) }
    {
        num_of(self.image)
    }

    // The id of a name and the offset of its entry, or nothing, with the number of buckets that the search reads.
    pub fn to_id(self, name: &[u8]) -> ToId
        ensures { lookup_of result ≡ lookup self.entry.image.now name.now }
    {
        reader::to_id(self.image, name)
    }

    // The place of an id's name, if it has one.
    pub fn to_str(self, id: u32) -> Option<Place>
        ensures { naming_of result ≡ naming self.entry.image.now id }
    {
        reader::to_str(self.image, id)
    }

    // The subslice that is an id's name, empty if it has none. It lives as long as the slice, and may outlive the view.
    pub fn name(self, id: u32) -> &'a [u8]
        ensures { slice result ≡ name_slice (slice self.entry.image) id }
    {
        reader::name(self.image, id)
    }

    // The next step of a walk, which begins with `reader::id_walk::iter`.
    pub fn next(self, walk: Iter) -> Option<Item>
        ensures { stepped_of result ≡ step self.entry.image.now walk.next }
    {
        reader::id_walk::next(self.image, walk)
    }

    // The home check: has the id a name, and has some match of that name's search this id?
    pub fn home(self, id: u32) -> bool
        ensures { result ≡ home self.entry.image.now id }
    {
        consistency::home(self.image, id)
    }
}

// The subslice of an image that is an id's name, empty if it has none, by a view that is made for it. Its parameters
// are plain, so the borrow checker covers its callers.
pub fn name_of_id<'a>(image: &'a [u8], id: u32) -> &'a [u8]
    ensures { slice result ≡ name_slice (slice image.entry) id }
{
    CQDB::new(image).name(id)
}
