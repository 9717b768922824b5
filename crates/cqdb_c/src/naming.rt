// Naming an id, the panel's reading, the hint of a walk, and the checks of readings and home, for C.
ghost use Rattle.std.specs.Prelude.{◌≡◌, ◌<◌};
ghost use Rattle.reader.specs.Naming.{length_in, naming};
ghost use Rattle.consistency.specs.Panel.{panel, readings_agree};
ghost use Rattle.reader.specs.IdWalk.{upper_hint};
ghost use Rattle.consistency.specs.Home.{home};
ghost use Rattle.reader.specs.Cases.{naming_of};
ghost use Rattle.cqdb_c.specs.ReadAnswers.{place_answer_of, one_if};

use reader::{Iter, Place};

// 1 and the place of the name in the image, its length and its first byte's offset; or three zeros. The length is
// below 2^32, since it is an entry's length word minus 1; the offset may lie above. So the answer has 16 bytes, which
// C hands back in two registers. The C interface: a struct of words in place of an Option.
#[repr(C)]
#[derive(Clone, Copy)]
pub struct PlaceAnswer {
    pub found: u32,
    pub len: u32,
    pub start: u64,
}

// A place as C has it, where its length is below 2^32. No `From`, which has no `requires`.
fn place_answer(place: Option<Place>) -> PlaceAnswer
    requires { length_in (naming_of place) < 4294967296 }
    ensures { result ≡ place_answer_of (naming_of place) }
{
    match place {
        Some(Place { start, len }) => PlaceAnswer {
            found: 1,
            len: len as u32,
            start: start as u64,
        },
        None => PlaceAnswer {
            found: 0,
            len: 0,
            start: 0,
        },
    }
}

// The place of an id's name, or nothing.
#[unsafe(no_mangle)]
pub extern "C" fn cqdb_to_str(image: &[u8], id: u32) -> PlaceAnswer
    ensures { result ≡ place_answer_of (naming image.now id) }
{
    place_answer(reader::to_str(image, id))
}

// The place of an id's name up to its first zero byte, as the panel reads it, or nothing.
#[unsafe(no_mangle)]
pub extern "C" fn cqdb_panel(image: &[u8], id: u32) -> PlaceAnswer
    ensures { result ≡ place_answer_of (panel image.now id) }
{
    place_answer(consistency::panel::panel_place(image, id))
}

// 1 when the panel's reading and the whole name agree on every id below back size, else 0.
#[unsafe(no_mangle)]
pub extern "C" fn cqdb_readings_agree(image: &[u8]) -> u32
    ensures { result ≡ one_if (readings_agree image.now) }
{
    u32::from(consistency::readings_agree(image))
}

// How many steps a walk that stands before the id `next` has left at most.
#[unsafe(no_mangle)]
pub extern "C" fn cqdb_size_hint(image: &[u8], next: u32) -> u32
    ensures { result ≡ upper_hint image.now next }
{
    reader::id_walk::size_hint(image, Iter { next })
}

// 1 when the id has a name and some entry that the search for it meets has this name and this id, else 0.
#[unsafe(no_mangle)]
pub extern "C" fn cqdb_home(image: &[u8], id: u32) -> u32
    ensures { result ≡ one_if (home image.now id) }
{
    u32::from(consistency::home(image, id))
}
