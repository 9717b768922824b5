// Whether the bytes from 2,072 to the record's end are its entries, and whether one of them has a name already, by
// one walk.
ghost use Rattle.std.specs.Prelude.{◌≡◌, cond};
ghost use Rattle.jhash.specs.Outcome.{outcome_of, refusal_of};
ghost use Rattle.jhash.specs.Refusals as refused;
ghost use Rattle.writer.specs.State.{state_with};
ghost use Rattle.writer.specs.Close.{consistent};
ghost use Rattle.writer.specs.Steps.Earlier.{EndInside, walking, earlier_refusal};

use super::{CQDBWriter, Repeats};
use jhash::refusals::Refusal;

// Whether one of the record's entries has this name; refusal 4 where they are not whole or have other counts or another
// back size than the record.
fn contains_name(
    w: &CQDBWriter,
    counts: &[u32; 256],
    buf: &[u8],
    name: &[u8],
) -> Result<bool, Refusal>
    requires { EndInside w.now buf.now }
    ensures { outcome_of result ≡ walking (state_with w.now counts.now buf.now) name.now }
{
    let mut tally = [0; 256];
    let Some(walked) = image::entries::walk(buf, w.end as usize, w.entries, &mut tally, name) else {
        return Err(Refusal::Inconsistent);
    };
    if *counts != tally {
        return Err(Refusal::Inconsistent);
    }
    if w.back as u64 != serialize::size::back_in(w.mode, walked.back) {
        return Err(Refusal::Inconsistent);
    }
    Ok(walked.contains)
}

// Whether the entries are whole and have the record's counts and back size; refusal 4 where not. No name is sought: the
// empty one stands in.
pub(super) fn check_consistent(
    w: &CQDBWriter,
    counts: &[u32; 256],
    buf: &[u8],
) -> Result<(), Refusal>
    requires { EndInside w.now buf.now }
    ensures { refusal_of result ≡ cond (consistent (state_with w.now counts.now buf.now)) 0 refused.inconsistent }
{
    contains_name(w, counts, buf, &buf[..0])?;
    Ok(())
}

// The refusal of a put of this name because of the earlier entries. With repeats on they are not walked.
pub(super) fn check_earlier(
    w: &CQDBWriter,
    counts: &[u32; 256],
    buf: &[u8],
    name: &[u8],
) -> Result<(), Refusal>
    requires { EndInside w.now buf.now }
    ensures { refusal_of result ≡ earlier_refusal (state_with w.now counts.now buf.now) name.now }
{
    match w.repeats {
        Repeats::Off => {
            if contains_name(w, counts, buf, name)? {
                return Err(Refusal::Repeated);
            }
            Ok(())
        }
        Repeats::On => Ok(()),
    }
}
