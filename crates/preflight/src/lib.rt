// May this report leave: whether two images name the ids of a round so that no movement is shown that never happened.
// Any bytes may be lent.
#![tactic(auto)]

ghost use Rattle.std.specs.Prelude.{◌≡◌};
ghost use Rattle.reader.specs.Naming.{name_given};
ghost use Rattle.preflight.specs.Verdicts.{is_whole, of_round, of_changes, verdict_first, verdict};
ghost use Rattle.preflight.specs.Preflight.{preflight_first, preflight};
ghost use Rattle.preflight.specs.Cases.{verdict_of, answered};

use counts::{compared, unsighted};
use image::head::FLAG_AT;
use image::word_or_zero;
use jhash::refusals::Refusal;
use names::{first_nameless, first_renamed, first_shared, first_taken, some_kept};
use on_sheet::of_sheet;

mod counts; // counts.rt: compared, unsighted: how much a yes is about
pub mod dates; // dates.rt: preflight_dates: windows that hold the dates of two reports
mod names; // names.rt: the questions about names
mod on_sheet; // on_sheet.rt: the round beside the sheet: of_sheet

// Two places in the round, of different ids with one name.
#[derive(Clone, Copy, Debug, PartialEq, Eq)]
pub struct Shared {
    pub place: usize,
    pub other: usize,
}

// An id that lost its old name, and the place in the round of the id that has it now.
#[derive(Clone, Copy, Debug, PartialEq, Eq)]
pub struct Taken {
    pub id: u32,
    pub place: usize,
}

// Why a report may not leave: the first question that fails, with the ids and the places in the round, counted from 0,
// that show it.
#[derive(Clone, Copy, Debug, PartialEq, Eq)]
pub enum Objection {
    NewRefused,
    SheetRefused(Refusal),
    OffSheet { place: usize },
    EmptyRound,
    Nameless { place: usize },
    OneName(Shared),
    OldRefused,
    NothingAlike,
    Renamed { place: usize },
    NameTaken(Taken),
}

// How much a yes is about: how many places of the round have an id that the old image names, so that it was compared,
// and how many have another; how many references and wall prisms of the sheet are not in the round. The first two are 0
// in a first report.
#[derive(Clone, Copy, Debug, PartialEq, Eq)]
pub struct Cleared {
    pub compared: usize,
    pub added: usize,
    pub unsighted: usize,
}

// Is the image canonical and two-way?
fn is_whole(image: &[u8]) -> bool
    ensures { result ≡ is_whole image.now }
{
    canonical::is_canonical(image) && word_or_zero(image, FLAG_AT) == 0
}

// The questions of the round by the new image alone.
fn of_round(new: &[u8], round: &[u32]) -> Result<(), Objection>
    ensures { verdict_of result ≡ of_round (name_given new.now) round.now }
{
    if round.is_empty() {
        return Err(Objection::EmptyRound);
    }
    if let Some(place) = first_nameless(new, round) {
        return Err(Objection::Nameless { place });
    }
    if let Some(shared) = first_shared(new, round) {
        return Err(Objection::OneName(shared));
    }
    Ok(())
}

// The questions of what changed.
fn of_changes(old: &[u8], new: &[u8], round: &[u32], accepted: &[u32]) -> Result<(), Objection>
    ensures { verdict_of result ≡ of_changes old.now new.now round.now accepted.now }
{
    if !is_whole(old) {
        return Err(Objection::OldRefused);
    }
    if !some_kept(old, new) {
        return Err(Objection::NothingAlike);
    }
    if let Some(place) = first_renamed(old, new, round, accepted) {
        return Err(Objection::Renamed { place });
    }
    if let Some(taken) = first_taken(old, new, round) {
        return Err(Objection::NameTaken(taken));
    }
    Ok(())
}

// The questions of a first report.
fn ask_first(new: &[u8], sheet: &[u8], round: &[u32]) -> Result<(), Objection>
    ensures { verdict_of result ≡ verdict_first new.now sheet.now round.now }
{
    if !is_whole(new) {
        return Err(Objection::NewRefused);
    }
    of_sheet(sheet, round)?;
    of_round(new, round)
}

// All questions.
fn ask_all(
    old: &[u8],
    new: &[u8],
    sheet: &[u8],
    round: &[u32],
    accepted: &[u32],
) -> Result<(), Objection>
    ensures { verdict_of result ≡ verdict old.now new.now sheet.now round.now accepted.now }
{
    ask_first(new, sheet, round)?;
    of_changes(old, new, round, accepted)
}

// May a first report leave, whose ids `new` names? There is no last report to compare it with.
pub fn preflight_first(new: &[u8], sheet: &[u8], round: &[u32]) -> Result<Cleared, Objection>
    ensures { answered result ≡ preflight_first new.now sheet.now round.now }
{
    ask_first(new, sheet, round)?;
    Ok(Cleared {
        compared: 0,
        added: 0,
        unsighted: unsighted(sheet, round),
    })
}

// May the report leave, whose ids `new` names, after one whose ids `old` named? The ids in `accepted` are renamed on
// purpose.
pub fn preflight(
    old: &[u8],
    new: &[u8],
    sheet: &[u8],
    round: &[u32],
    accepted: &[u32],
) -> Result<Cleared, Objection>
    ensures { answered result ≡ preflight old.now new.now sheet.now round.now accepted.now }
{
    ask_all(old, new, sheet, round, accepted)?;
    let compared = compared(old, round);
    Ok(Cleared {
        compared,
        added: round.len() - compared,
        unsighted: unsighted(sheet, round),
    })
}
