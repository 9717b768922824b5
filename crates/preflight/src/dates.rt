// Windows beside a round: whether every id of the round has one window that holds the date of the last report and that
// of this one, so that no prism was taken away and set again between them. Windows are lent as words, three to a
// window, as `validity::Window` lies in memory.
ghost use Rattle.std.specs.Prelude.{◌≡◌, Bool, length, ◌+◌, ◌*◌, ◌<◌};
ghost use Rattle.validity.specs.Rule.{some_window, invalid_dates, inverted, holds_date};
ghost use Rattle.preflight.specs.Dates.{date_of, window_at, windows_in, holds_both, first_outside, preflight_dates};
ghost use Rattle.preflight.specs.Cases.{place_of, dates_of};
ghost use Rattle.validity.specs.declared.Window.{Window};

use jhash::refusals::Refusal;
use validity::calendar::{earlier, is_date, is_end};
use validity::{Date, Window};

// Why the dates of a report are no: a refusal, 22 or 23; or the place of the first id of the round that has no such
// window.
#[derive(Clone, Copy, Debug, PartialEq, Eq)]
pub enum DatesObjection {
    Refused(Refusal),
    Outside { place: usize },
}

// The date in a word: its low half is the year, the two bytes above are month and day.
fn date_of(word: u32) -> Date
    ensures { result ≡ date_of word }
{
    Date {
        year: (word % 65536) as u16,
        month: (word / 65536 % 256) as u8,
        day: (word / 16777216) as u8,
    }
}

// The i-th window in the words.
fn window_at(windows: &[u32], i: usize) -> Window
    requires { 3 * i + 2 < length windows.now }
    ensures { result ≡ window_at windows.now i }
{
    Window {
        id: windows[3 * i],
        first: date_of(windows[3 * i + 1]),
        end: date_of(windows[3 * i + 2]),
    }
}

// Has the window a date that does not exist or is out of bounds?
fn has_invalid_date(w: Window) -> bool
    ensures { result ≡ invalid_dates w }
{
    !is_date(w.first) || !is_end(w.end)
}

// Does the window not start before its end?
fn is_inverted(w: Window) -> bool
    ensures { result ≡ inverted w }
{
    !earlier(w.first, w.end)
}

// Is it a window of the id that holds the date, the first date included, the end date not?
fn holds_date(w: Window, id: u32, date: Date) -> bool
    ensures { result ≡ holds_date id date w }
{
    if w.id != id {
        return false;
    }
    !earlier(date, w.first) && earlier(date, w.end)
}

// Is it a window of the id that holds both dates?
fn holds_both(w: Window, id: u32, last: Date, date: Date) -> bool
    ensures { result ≡ holds_both last date id w }
{
    holds_date(w, id, last) && holds_date(w, id, date)
}

// Does some window pass a test?
fn some_window<F: Fn(Window) -> bool>(windows: &[u32], test: F) -> bool
    requires { F.IsAlwaysCallable test }
    ensures { (t : Window → Bool) → ((w : Window) (r : Bool) → F.post test w r → r ≡ t w)
        → result ≡ some_window t (windows_in windows.now) }
{
    for i in 0..windows.len() / 3 {
        if test(window_at(windows, i)) {
            return true;
        }
    }
    false
}

// The place of the first id of the round without a window that holds both dates.
fn first_outside(windows: &[u32], round: &[u32], last: Date, date: Date) -> Option<usize>
    ensures { place_of result ≡ first_outside (windows_in windows.now) last date round.now }
{
    round.iter().position(|id| !some_window(windows, |w| holds_both(w, *id, last, date)))
}

// Has every id of the round one window that holds both dates? Refused with 22 for a date that does not exist or is out
// of bounds, that of the last report, that of this one or a window's; after these with 23 for a window that does not
// start before its end.
pub fn preflight_dates(
    windows: &[u32],
    round: &[u32],
    last: Date,
    date: Date,
) -> Result<(), DatesObjection>
    ensures { dates_of result ≡ preflight_dates (windows_in windows.now) round.now last date }
{
    if !is_date(last) || !is_date(date) || some_window(windows, |w| has_invalid_date(w)) {
        return Err(DatesObjection::Refused(Refusal::NoSuchDate));
    }
    if some_window(windows, |w| is_inverted(w)) {
        return Err(DatesObjection::Refused(Refusal::NotBeforeEnd));
    }
    match first_outside(windows, round, last, date) {
        Some(place) => Err(DatesObjection::Outside { place }),
        None => Ok(()),
    }
}
