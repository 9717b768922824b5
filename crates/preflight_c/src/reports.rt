// The questions of a report for C: thin calls of the proved functions that bear the work.
ghost use Rattle.std.specs.Prelude.{◌≡◌, Err};
ghost use Rattle.preflight.specs.Preflight.{preflight, preflight_first};
ghost use Rattle.preflight.specs.Cases.{answered};
ghost use Rattle.preflight_c.specs.PreflightAnswer.{objected, preflight_answer};

use preflight::{Cleared, Objection};

// The number of the first question that fails, 0 for yes, and what shows it; the counts of a yes. Fields that do not
// apply are 0.
#[repr(C)]
#[derive(Clone, Copy)]
pub struct PreflightAnswer {
    pub question: u32,
    pub refusal: u32,
    pub id: u32,
    pub place: u64,
    pub other: u64,
    pub compared: u64,
    pub added: u64,
    pub unsighted: u64,
}

// A question that fails, with what shows it; a no has no counts.
fn objected(question: u32, refusal: u32, id: u32, place: usize, other: usize) -> PreflightAnswer
    ensures { result ≡ objected question refusal id place other }
{
    PreflightAnswer {
        question,
        refusal,
        id,
        place: place as u64,
        other: other as u64,
        compared: 0,
        added: 0,
        unsighted: 0,
    }
}

// The objection as a struct of numbers.
fn objection(o: Objection) -> PreflightAnswer
    ensures { result ≡ preflight_answer (answered (Err o)) }
{
    match o {
        Objection::NewRefused => objected(1, 0, 0, 0, 0),
        Objection::SheetRefused(refusal) => objected(2, u32::from(refusal), 0, 0, 0),
        Objection::OffSheet { place } => objected(3, 0, 0, place, 0),
        Objection::EmptyRound => objected(4, 0, 0, 0, 0),
        Objection::Nameless { place } => objected(5, 0, 0, place, 0),
        Objection::OneName(shared) => objected(6, 0, 0, shared.place, shared.other),
        Objection::OldRefused => objected(7, 0, 0, 0, 0),
        Objection::NothingAlike => objected(8, 0, 0, 0, 0),
        Objection::Renamed { place } => objected(9, 0, 0, place, 0),
        Objection::NameTaken(taken) => objected(10, 0, taken.id, taken.place, 0),
    }
}

// The answer as a struct of numbers.
fn answer(r: Result<Cleared, Objection>) -> PreflightAnswer
    ensures { result ≡ preflight_answer (answered r) }
{
    match r {
        Ok(cleared) => PreflightAnswer {
            question: 0,
            refusal: 0,
            id: 0,
            place: 0,
            other: 0,
            compared: cleared.compared as u64,
            added: cleared.added as u64,
            unsighted: cleared.unsighted as u64,
        },
        Err(o) => objection(o),
    }
}

// May the report leave?
#[unsafe(no_mangle)]
pub extern "C" fn cqdb_preflight_parts(
    old: &[u8],
    new: &[u8],
    sheet: &[u8],
    round: &[u32],
    accepted: &[u32],
) -> PreflightAnswer
    ensures { result ≡ preflight_answer (preflight old.now new.now sheet.now round.now
        accepted.now) }
{
    answer(preflight::preflight(old, new, sheet, round, accepted))
}

// May a first report leave?
#[unsafe(no_mangle)]
pub extern "C" fn cqdb_preflight_first_parts(
    new: &[u8],
    sheet: &[u8],
    round: &[u32],
) -> PreflightAnswer
    ensures { result ≡ preflight_answer (preflight_first new.now sheet.now round.now) }
{
    answer(preflight::preflight_first(new, sheet, round))
}
