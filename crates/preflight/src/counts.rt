// How much a yes is about: how many ids of the round were compared, and how many of the sheet were not sighted.
ghost use Rattle.std.specs.Prelude.{◌≡◌};
ghost use Rattle.reader.specs.Naming.{name_given};
ghost use Rattle.sheet.specs.SheetReading.{read_lists};
ghost use Rattle.preflight.specs.Counts.{names, unsighted_in};
ghost use Rattle.preflight.specs.OnSheet.{of_sheet};
ghost use Rattle.preflight.specs.Steps.Contracts.{Tallied};
ghost use Rattle.preflight.specs.Steps.Distinct.{distinct};
ghost use Rattle.preflight.specs.Answers.Verdict.{Yes};

use super::names::occurs;
use reader::name_given;
use sheet::{Which, section};

// How many places of the round have an id that the old image names, so that it is compared.
pub(crate) fn compared(old: &[u8], round: &[u32]) -> usize
    ensures { Tallied (names (name_given old.now)) round.now result }
{
    let mut seen: usize = 0;
    for id in round {
        if name_given(old, *id).is_some() {
            seen += 1;
        }
    }
    seen
}

// How many different ids the round has: the places whose id does not follow once more.
fn distinct(round: &[u32]) -> usize
    ensures { result ≡ distinct round.now }
{
    let mut seen: usize = 0;
    for (i, id) in round.iter().enumerate() {
        if !occurs(&round[i + 1..], *id) {
            seen += 1;
        }
    }
    seen
}

// How many references and wall prisms of a sheet are not in the round, where each id of the round is one of them, once:
// all but the different ids of the round.
pub(crate) fn unsighted(file: &[u8], round: &[u32]) -> usize
    requires { of_sheet (read_lists file.now) round.now ≡ Yes }
    ensures { result ≡ unsighted_in (read_lists file.now) round.now }
{
    let references = section(file, Which::References);
    let walls = section(file, Which::Walls);
    references.len() / 4 + walls.len() / 4 - distinct(round)
}
