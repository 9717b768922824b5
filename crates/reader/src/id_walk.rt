// Walking over the ids (reference `iter`, `next`, `size_hint`).
ghost use Rattle.std.specs.Prelude.{◌≡◌};
ghost use Rattle.reader.specs.IdWalk.{step, upper_hint};
ghost use Rattle.reader.specs.Cases.{stepped_of};

use super::naming::{no_back, to_str};
use super::{Item, Iter};
use image::head::BACK_SIZE_AT;
use jhash::word::word;

// A walk whose next id is 0.
pub fn iter() -> Iter
    ensures { result.next ≡ 0 }
{
    Iter { next: 0 }
}

// The next step of a walk. It ends at the first id without a name; calling `next` again with the same walk gives the
// end again.
pub fn next(image: &[u8], walk: Iter) -> Option<Item>
    ensures { stepped_of result ≡ step image.now walk.next }
{
    let id = walk.next;
    let place = to_str(image, id)?;
    Some(Item {
        id,
        place,
        iter: Iter { next: id + 1 },
    })
}

// How many steps a walk has left at most.
pub fn size_hint(image: &[u8], walk: Iter) -> u32
    ensures { result ≡ upper_hint image.now walk.next }
{
    if no_back(image) {
        return 0;
    }
    word(image, BACK_SIZE_AT).saturating_sub(walk.next)
}
