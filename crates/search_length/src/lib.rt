// The average search length (02 (x)): how many buckets are read when the name of each entry of an image is looked up,
// divided by the number of entries. Also how many entries have each length.
#![tactic(auto)]

ghost use Rattle.std.specs.Prelude.{◌≡◌, MatchResult};
ghost use Rattle.jhash.specs.Outcome.{outcome_of, refusal_of};
ghost use Rattle.search_length.specs.Average.{averaging, Lengths};
ghost use Rattle.search_length.specs.Steps.Contracts.{SomeEntries, ImageRefused};

use canonical::{entry_count, is_canonical};
use jhash::refusals::Refusal;
use walks::count_lengths;

mod walks; // walks.rt: the search lengths of the entries

// The number of entries, and the total of the search lengths divided by it: quotient and remainder.
#[derive(Clone, Copy)]
pub struct AverageLength {
    pub entries: u32,
    pub quotient: u64,
    pub remainder: u64,
}

// The number of entries of an image that the calls accept: it is canonical, and has some.
fn some_entries(image: &[u8]) -> Result<u32, Refusal>
    ensures { MatchResult result (SomeEntries image.now) (ImageRefused image.now) }
{
    let n = entry_count(image);
    if !is_canonical(image) {
        return Err(Refusal::NotCanonical);
    }
    if n == 0 {
        return Err(Refusal::NoEntries);
    }
    Ok(n)
}

// The average search length of a canonical image that has entries.
pub fn average(image: &[u8]) -> Result<AverageLength, Refusal>
    ensures { outcome_of result ≡ averaging image.now }
{
    let entries = some_entries(image)?;
    let mut counts = [0; 16];
    let sum = count_lengths(image, entries, &mut counts);
    let count = entries as u64;
    Ok(AverageLength {
        entries,
        quotient: sum / count,
        remainder: sum % count,
    })
}

// Stores how many entries are found after 1, 2, .. 15 and 16 or more buckets. If the call is refused, the list stays as
// it was.
pub fn lengths(image: &[u8], counts: &mut [u32; 16]) -> Result<(), Refusal>
    ensures { Lengths image.now counts.old counts.new (refusal_of result) }
{
    let entries = some_entries(image)?;
    *counts = [0; 16];
    count_lengths(image, entries, &mut *counts);
    Ok(())
}
