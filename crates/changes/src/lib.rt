// Two images compared: which ids they name differently, and which id has an old name now. Any bytes may be lent.
#![tactic(auto)]

ghost use Rattle.std.specs.Prelude.{◌≡◌};
ghost use Rattle.changes.specs.Changes.{upper, differs, next_change};
ghost use Rattle.changes.specs.Moves.{other_id, moved};
ghost use Rattle.changes.specs.Cases.{change_of, moved_of};
ghost use Rattle.reader.specs.Lookup.{lookup};

use image::equality::same;
use reader::id_walk::{iter, size_hint};
use reader::{Place, name_given, to_id, to_str};

// A change: an id, and the places of what the old and the new image name it, if they name it.
#[derive(Clone, Copy)]
pub struct Change {
    pub id: u32,
    pub before: Option<Place>,
    pub after: Option<Place>,
}

// The larger of the two upper hints at 0.
fn upper(old: &[u8], new: &[u8]) -> u32
    ensures { result ≡ upper old.now new.now }
{
    size_hint(old, iter()).max(size_hint(new, iter()))
}

// Do the two images name the id differently?
fn differs(old: &[u8], new: &[u8], id: u32) -> bool
    ensures { result ≡ differs old.now new.now id }
{
    match (name_given(old, id), name_given(new, id)) {
        (Some(before), Some(after)) => !same(before, after),
        (None, None) => false,
        _ => true,
    }
}

// The first id from `from` on, below the larger of the two upper hints at 0, that the two images name differently.
pub fn next_change(old: &[u8], new: &[u8], from: u64) -> Option<Change>
    ensures { change_of result ≡ next_change old.now new.now from }
{
    let end = upper(old, new);
    let first = u32::try_from(from).ok()?;
    let id = (first..end).find(|id| differs(old, new, *id))?;
    Some(Change {
        id,
        before: to_str(old, id),
        after: to_str(new, id),
    })
}

// The id that the new image has for a name, where it is another than this one.
fn other_id(new: &[u8], name: &[u8], id: u32) -> Option<u32>
    ensures { moved_of result ≡ other_id id (lookup new.now name.now) }
{
    let hit = to_id(new, name).hit?;
    if hit.id == id {
        return None;
    }
    Some(hit.id)
}

// Is the id's old name now another id's name, looked up in the new image? If so, that id.
pub fn moved(old: &[u8], new: &[u8], id: u32) -> Option<u32>
    ensures { moved_of result ≡ moved old.now new.now id }
{
    other_id(new, name_given(old, id)?, id)
}
