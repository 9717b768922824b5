// Whether an image is consistent, on every slice of bytes: whether an id's name leads back to it (the home check), and
// whether the panel, which reads names as C strings, reads whole names. No call has a `requires`. A crate of its own
// for the time of a check alone: this one takes 10 s and the reader 21 s, and a must-fail edit proves its whole crate.
#![tactic(auto)]

ghost use Rattle.std.specs.Prelude.{◌≡◌};
ghost use Rattle.consistency.specs.Home.{home};

use matching::has_match;
use reader::name_given;

mod matching; // matching.rt: the search of the home check, past an equal name
pub mod panel; // panel.rt: panel, panel_place, readings_agree

pub use panel::readings_agree;

// The home check (01's term): has the id a name, and has some match of that name's search this id?
pub fn home(image: &[u8], id: u32) -> bool
    ensures { result ≡ home image.now id }
{
    match name_given(image, id) {
        Some(name) => has_match(image, name, id),
        None => false,
    }
}
