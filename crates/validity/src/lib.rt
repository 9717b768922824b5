// Names with a season: an id's name on a date, by a lent list of windows.
#![tactic(auto)]

ghost use Rattle.std.specs.Prelude.{◌≡◌};
ghost use Rattle.reader.specs.Slices.{slice};
ghost use Rattle.validity.specs.Rule.{naming_on, name_part_on};
ghost use Rattle.validity.specs.Cases.{named_on_of};
ghost use Rattle.validity.specs.Windows.{place_by_state, part_by_state};

use calendar::is_date;
use jhash::refusals::Refusal;
use reader::Place;
use windows::window_state;

pub mod calendar; // calendar.rt: months, dates, and their order
pub mod windows; // windows.rt: window_state, what the windows say of an id on a date

// Year, month and day, whether such a day exists or not. Dates are ordered by year, then month, then day.
#[repr(C)]
#[derive(Clone, Copy, PartialEq, Eq, PartialOrd, Ord)]
pub struct Date {
    pub year: u16,
    pub month: u8,
    pub day: u8,
}

// The id's prism stands from the first date on, and on the end date no longer.
#[repr(C)]
#[derive(Clone, Copy)]
pub struct Window {
    pub id: u32,
    pub first: Date,
    pub end: Date,
}

// What windows say of an id on a date, each case stronger than those before it: no window of the id holds the date;
// one does; a window does not start before its end; a window has a date that does not exist or is out of bounds.
#[derive(Clone, Copy, PartialEq, Eq, PartialOrd, Ord)]
pub enum WindowState {
    Inactive,
    Active,
    Inverted,
    InvalidDate,
}

// The place of an id's name on a date, where the windows say s.
pub fn place_by_state(
    image: &[u8],
    id: u32,
    date: Date,
    s: WindowState,
) -> Result<Option<Place>, Refusal>
    ensures { named_on_of result ≡ place_by_state image.now id date s }
{
    if !is_date(date) {
        return Err(Refusal::NoSuchDate);
    }
    match s {
        WindowState::Inactive => Ok(None),
        WindowState::Active => Ok(reader::to_str(image, id)),
        WindowState::Inverted => Err(Refusal::NotBeforeEnd),
        WindowState::InvalidDate => Err(Refusal::NoSuchDate),
    }
}

// The part of the lent image that is an id's name on a date, where the windows say s; empty if it has none, or is
// refused.
fn part_by_state<'a>(image: &'a [u8], id: u32, date: Date, s: WindowState) -> &'a [u8]
    ensures { slice result ≡ part_by_state (slice image.entry) id date s }
{
    match place_by_state(image, id, date, s) {
        Ok(Some(place)) => &image[place.start..place.start + place.len],
        _ => &image[0..0],
    }
}

// The place of an id's name on a date, or nothing; or refusal 22 for a date that does not exist or is out of bounds,
// the one asked about or a window's, and after that 23 for a window that does not start before its end.
pub fn to_str_on(
    image: &[u8],
    id: u32,
    date: Date,
    windows: &[Window],
) -> Result<Option<Place>, Refusal>
    ensures { named_on_of result ≡ naming_on image.now id date windows.now }
{
    place_by_state(image, id, date, window_state(windows, id, date))
}

// The part of the lent image that is an id's name on a date; empty if it has none, or is refused.
pub fn name_on<'a>(image: &'a [u8], id: u32, date: Date, windows: &[Window]) -> &'a [u8]
    ensures { slice result ≡ name_part_on (slice image.entry) id date windows.now }
{
    part_by_state(image, id, date, window_state(windows, id, date))
}
