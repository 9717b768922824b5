// The dates of a report for C: a thin call of the proved function that bears the work.
ghost use Rattle.std.specs.Prelude.{◌≡◌};
ghost use Rattle.preflight.specs.Dates.{windows_in, preflight_dates};
ghost use Rattle.preflight_c.specs.PreflightDatesAnswer.{dates_answer};

use preflight::dates::DatesObjection;
use validity::Date;

// 0 for yes, 11 for no, and then the place that shows it; or the refusal's number. Fields that do not apply are 0.
#[repr(C)]
#[derive(Clone, Copy)]
pub struct PreflightDatesAnswer {
    pub question: u32,
    pub refusal: u32,
    pub place: u64,
}

// Has every id of the round one window that holds both dates? The windows are words, three to a window.
#[unsafe(no_mangle)]
pub extern "C" fn cqdb_preflight_dates_words(
    windows: &[u32],
    round: &[u32],
    last: Date,
    date: Date,
) -> PreflightDatesAnswer
    ensures { result ≡ dates_answer (preflight_dates (windows_in windows.now) round.now last date) }
{
    match preflight::dates::preflight_dates(windows, round, last, date) {
        Ok(()) => PreflightDatesAnswer {
            question: 0,
            refusal: 0,
            place: 0,
        },
        Err(DatesObjection::Refused(refusal)) => PreflightDatesAnswer {
            question: 0,
            refusal: u32::from(refusal),
            place: 0,
        },
        Err(DatesObjection::Outside { place }) => PreflightDatesAnswer {
            question: 11,
            refusal: 0,
            place: place as u64,
        },
    }
}
