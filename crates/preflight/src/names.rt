// The questions about names: those of one id, and the first id of a round, or of a catalogue, that fails one.
ghost use Rattle.std.specs.Prelude.{◌≡◌};
ghost use Rattle.reader.specs.Naming.{name_given};
ghost use Rattle.preflight.specs.Ids.{occurs};
ghost use Rattle.preflight.specs.Names.{nameless, is_name, other_has, kept, lost, renamed};
ghost use Rattle.preflight.specs.Names.{first_nameless, first_renamed, first_other};
ghost use Rattle.preflight.specs.Exchanges.{first_shared_in, some_kept_in, taker_of, first_taken_in};
ghost use Rattle.preflight.specs.Cases.{place_of, shared_of, taken_of};

use super::{Shared, Taken};
use image::equality::same;
use reader::id_walk::{iter, size_hint};
use reader::name_given;

// Has the id no name, or the empty one?
fn nameless(image: &[u8], id: u32) -> bool
    ensures { result ≡ nameless (name_given image.now) id }
{
    match name_given(image, id) {
        Some(name) => name.is_empty(),
        None => true,
    }
}

// Has the id this name?
fn has_name(image: &[u8], id: u32, name: &[u8]) -> bool
    ensures { result ≡ is_name (name_given image.now id) name.now }
{
    match name_given(image, id) {
        Some(given) => same(given, name),
        None => false,
    }
}

// Is x another id than this one, and has it this name?
fn other_has(new: &[u8], name: &[u8], id: u32, x: u32) -> bool
    ensures { result ≡ other_has (name_given new.now) name.now id x }
{
    x != id && has_name(new, x, name)
}

// Do both images name the id, and alike?
fn kept(old: &[u8], new: &[u8], id: u32) -> bool
    ensures { result ≡ kept (name_given old.now) (name_given new.now) id }
{
    match name_given(old, id) {
        Some(name) => has_name(new, id, name),
        None => false,
    }
}

// Has the id lost its old name?
fn lost(old: &[u8], new: &[u8], id: u32) -> bool
    ensures { result ≡ lost (name_given old.now) (name_given new.now) id }
{
    match name_given(old, id) {
        Some(name) => !has_name(new, id, name),
        None => false,
    }
}

// Is the id in the list?
pub(crate) fn occurs(ids: &[u32], id: u32) -> bool
    ensures { result ≡ occurs id ids.now }
{
    ids.contains(&id)
}

// Has the id lost its old name, and is no intended rename?
fn renamed(old: &[u8], new: &[u8], accepted: &[u32], id: u32) -> bool
    ensures { result ≡ renamed (name_given old.now) (name_given new.now) accepted.now id }
{
    lost(old, new, id) && !occurs(accepted, id)
}

// The place of the first id of the round without a name, or with the empty one.
pub(crate) fn first_nameless(new: &[u8], round: &[u32]) -> Option<usize>
    ensures { place_of result ≡ first_nameless (name_given new.now) round.now }
{
    round.iter().position(|id| nameless(new, *id))
}

// The place of the first id of the round, other than this one, that has in `new` the name that this one has in `image`.
fn first_other(image: &[u8], new: &[u8], id: u32, round: &[u32]) -> Option<usize>
    ensures { place_of result ≡ first_other (name_given new.now) (name_given image.now id) id round.now }
{
    let name = name_given(image, id)?;
    round.iter().position(|x| other_has(new, name, id, *x))
}

// The first place in the round of an id whose name another id of the round has, and the first place of such another.
pub(crate) fn first_shared(new: &[u8], round: &[u32]) -> Option<Shared>
    ensures { shared_of result ≡ first_shared_in (name_given new.now) round.now }
{
    for (place, id) in round.iter().enumerate() {
        if let Some(other) = first_other(new, new, *id, round) {
            return Some(Shared { place, other });
        }
    }
    None
}

// Do the two images name some id alike, sighted or not?
pub(crate) fn some_kept(old: &[u8], new: &[u8]) -> bool
    ensures { result ≡ some_kept_in old.now new.now }
{
    (0..size_hint(old, iter())).any(|id| kept(old, new, id))
}

// The place of the first renamed id of the round.
pub(crate) fn first_renamed(
    old: &[u8],
    new: &[u8],
    round: &[u32],
    accepted: &[u32],
) -> Option<usize>
    ensures { place_of result ≡ first_renamed (name_given old.now) (name_given new.now) accepted.now round.now }
{
    round.iter().position(|id| renamed(old, new, accepted, *id))
}

// The place of the first id of the round that has the old name of an id that lost it.
fn taker(old: &[u8], new: &[u8], id: u32, round: &[u32]) -> Option<usize>
    ensures { place_of result ≡ taker_of (name_given old.now) (name_given new.now) round.now id }
{
    if !lost(old, new, id) {
        return None;
    }
    first_other(old, new, id, round)
}

// The first id, in the round or not, whose old name an id of the round has, and that has lost it.
pub(crate) fn first_taken(old: &[u8], new: &[u8], round: &[u32]) -> Option<Taken>
    ensures { taken_of result ≡ first_taken_in old.now new.now round.now }
{
    let end = size_hint(old, iter());
    for id in 0..end {
        if let Some(place) = taker(old, new, id, round) {
            return Some(Taken { id, place });
        }
    }
    None
}
