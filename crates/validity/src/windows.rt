// What windows say of an id on a date.
ghost use Rattle.std.specs.Prelude.{◌≡◌};
ghost use Rattle.validity.specs.Windows.{window_state};
ghost use Rattle.validity.specs.Steps.Fold.{one_window_state};

use super::calendar::{earlier, is_date, is_end};
use super::{Date, Window, WindowState};

// What one window says.
fn state_of(w: Window, id: u32, date: Date) -> WindowState
    ensures { result ≡ one_window_state id date w }
{
    if !is_date(w.first) || !is_end(w.end) {
        return WindowState::InvalidDate;
    }
    if !earlier(w.first, w.end) {
        return WindowState::Inverted;
    }
    if w.id == id && !earlier(date, w.first) && earlier(date, w.end) {
        return WindowState::Active;
    }
    WindowState::Inactive
}

// What all windows say, in one pass: the strongest of what each says.
pub fn window_state(windows: &[Window], id: u32, date: Date) -> WindowState
    ensures { result ≡ window_state id date windows.now }
{
    windows.iter().fold(WindowState::Inactive, |s, w| s.max(state_of(*w, id, date)))
}
