// Names with a season, for C.
ghost use Rattle.std.specs.Prelude.{◌≡◌};
ghost use Rattle.validity.specs.Rule.{naming_on};
ghost use Rattle.validity.specs.Windows.{place_by_state};
ghost use Rattle.reader_c.specs.NameOnAnswer.{on_answer};

use validity::{Date, Window, WindowState};

// The refusal's number, 0 when accepted; 1 and the place of the name in the image, its length and its first byte's
// offset; or zeros. The length is below 2^32, since it is an entry's length word minus 1.
#[repr(C)]
#[derive(Clone, Copy)]
pub struct OnAnswer {
    pub refusal: u32,
    pub found: u32,
    pub len: u32,
    pub start: u64,
}

// The place of an id's name on a date as C has it, where the windows say s.
fn answer_by(image: &[u8], id: u32, date: Date, s: WindowState) -> OnAnswer
    ensures { result ≡ on_answer (place_by_state image.now id date s) }
{
    match validity::place_by_state(image, id, date, s) {
        Ok(Some(place)) => OnAnswer {
            refusal: 0,
            found: 1,
            len: place.len as u32,
            start: place.start as u64,
        },
        Ok(None) => OnAnswer {
            refusal: 0,
            found: 0,
            len: 0,
            start: 0,
        },
        Err(refusal) => OnAnswer {
            refusal: u32::from(refusal),
            found: 0,
            len: 0,
            start: 0,
        },
    }
}

// The place of an id's name on a date, or nothing; or refusal 22 or 23.
#[unsafe(no_mangle)]
pub extern "C" fn cqdb_name_on(image: &[u8], id: u32, date: Date, windows: &[Window]) -> OnAnswer
    ensures { result ≡ on_answer (naming_on image.now id date windows.now) }
{
    answer_by(
        image,
        id,
        date,
        validity::windows::window_state(windows, id, date),
    )
}
