// Two images compared, for C.
ghost use Rattle.std.specs.Prelude.{◌≡◌, ◌<◌};
ghost use Rattle.reader.specs.Naming.{length_in};
ghost use Rattle.reader.specs.Cases.{naming_of};
ghost use Rattle.changes.specs.Changes.{next_change};
ghost use Rattle.changes.specs.Moves.{moved};
ghost use Rattle.reader_c.specs.ChangeAnswers.{name_answer, change_answer, moved_answer};

use reader::Place;

// 1 and the place of the name in its image, its length and its first byte's offset; or three zeros.
#[repr(C)]
#[derive(Clone, Copy)]
pub struct NameAnswer {
    pub found: u32,
    pub len: u32,
    pub start: u64,
}

// 1, the id, and the places of its names in the old and the new image; or zeros.
#[repr(C)]
#[derive(Clone, Copy)]
pub struct ChangeAnswer {
    pub found: u32,
    pub id: u32,
    pub before: NameAnswer,
    pub after: NameAnswer,
}

// 1 and the id to which the old name moved, or two zeros.
#[repr(C)]
#[derive(Clone, Copy)]
pub struct MovedAnswer {
    pub found: u32,
    pub id: u32,
}

// A place as C has it, where its length is below 2^32.
fn name_answer(named: Option<Place>) -> NameAnswer
    requires { length_in (naming_of named) < 4294967296 }
    ensures { result ≡ name_answer (naming_of named) }
{
    match named {
        Some(place) => NameAnswer {
            found: 1,
            len: place.len as u32,
            start: place.start as u64,
        },
        None => NameAnswer {
            found: 0,
            len: 0,
            start: 0,
        },
    }
}

// The first id from `from` on that the two images name differently, with both namings; or none.
#[unsafe(no_mangle)]
pub extern "C" fn cqdb_next_change(old: &[u8], new: &[u8], from: u64) -> ChangeAnswer
    ensures { result ≡ change_answer (next_change old.now new.now from) }
{
    match changes::next_change(old, new, from) {
        Some(change) => ChangeAnswer {
            found: 1,
            id: change.id,
            before: name_answer(change.before),
            after: name_answer(change.after),
        },
        None => ChangeAnswer {
            found: 0,
            id: 0,
            before: name_answer(None),
            after: name_answer(None),
        },
    }
}

// The other id, if any, that the new image has for the id's old name.
#[unsafe(no_mangle)]
pub extern "C" fn cqdb_moved(old: &[u8], new: &[u8], id: u32) -> MovedAnswer
    ensures { result ≡ moved_answer (moved old.now new.now id) }
{
    match changes::moved(old, new, id) {
        Some(other) => MovedAnswer {
            found: 1,
            id: other,
        },
        None => MovedAnswer { found: 0, id: 0 },
    }
}
