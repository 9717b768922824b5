// The round beside the sheet: whether each id of the round is on the sheet once, as a reference or a wall prism.
ghost use Rattle.std.specs.Prelude.{◌≡◌};
ghost use Rattle.sheet.specs.SheetReading.{ids_in, read_lists};
ghost use Rattle.preflight.specs.Ids.{is_id};
ghost use Rattle.preflight.specs.OnSheet.{off_sheet, first_off, of_sheet};
ghost use Rattle.preflight.specs.Steps.Contracts.{PartTallied};
ghost use Rattle.preflight.specs.Cases.{place_of, verdict_of};

use super::Objection;
use sheet::{Which, id_at, section};

// How often an id stands in a part of a sheet.
fn count(part: &[u8], id: u32) -> usize
    ensures { PartTallied (is_id id) part.now result }
{
    let mut seen: usize = 0;
    for i in 0..part.len() / 4 {
        if id_at(part, i) == id {
            seen += 1;
        }
    }
    seen
}

// Is the id not on the sheet exactly once, as a reference or a wall prism?
fn off_sheet(references: &[u8], walls: &[u8], retired: &[u8], id: u32) -> bool
    ensures { result ≡ off_sheet (ids_in references.now) (ids_in walls.now) (ids_in retired.now) id }
{
    if count(references, id) + count(walls, id) != 1 {
        return true;
    }
    count(retired, id) != 0
}

// The place of the first id of the round that is not.
fn first_off(references: &[u8], walls: &[u8], retired: &[u8], round: &[u32]) -> Option<usize>
    ensures { place_of result ≡ first_off (ids_in references.now) (ids_in walls.now) (ids_in retired.now) round.now }
{
    round
        .iter()
        .position(|id| off_sheet(references, walls, retired, *id))
}

// The questions of the sheet.
pub(crate) fn of_sheet(file: &[u8], round: &[u32]) -> Result<(), Objection>
    ensures { verdict_of result ≡ of_sheet (read_lists file.now) round.now }
{
    match sheet::read(file) {
        Err(refusal) => Err(Objection::SheetRefused(refusal)),
        Ok(_) => {
            let references = section(file, Which::References);
            let walls = section(file, Which::Walls);
            let retired = section(file, Which::Retired);
            match first_off(references, walls, retired, round) {
                Some(place) => Err(Objection::OffSheet { place }),
                None => Ok(()),
            }
        }
    }
}
