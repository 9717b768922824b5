// A whole round in one call: names in and ids out, or ids in and names out.
#![tactic(auto)]

ghost use Rattle.std.specs.Prelude.{◌≡◌, ◌/◌, length};
ghost use Rattle.jhash.specs.Outcome.{outcome_of};
ghost use Rattle.batch.specs.RoundNames.{names};
ghost use Rattle.batch.specs.Round.{round_outcome, after_round};
ghost use Rattle.batch.specs.Steps.Answers.{AnswerAllPre, AnsweredAll};

use self::names::{Round, hash_names};
use answering::{copy_duplicates, find_all, sum_buckets};
use deduplicate::deduplicate;
use image::packed::PackedNames;
use jhash::refusals::Refusal;

mod names; // names.rt: the names of a round, with their hashes
mod deduplicate; // deduplicate.rt: equal names, and the unique ones
mod probing; // probing.rt: a pass over the searches that are still open
mod answering; // answering.rt: the answers in their places
pub mod naming; // naming.rt: name_round

pub use naming::name_round;

// "Up to 512 names" (02 (vii)): how many names or ids a round has at most.
pub(crate) const MOST_NAMES: usize = 512;

// Stores the answers of all names in their places. Gives how many buckets were read, with equal names counted once.
fn answer_all(image: &[u8], packed: PackedNames, answers: &mut [u32]) -> u64
    requires { AnswerAllPre packed.ends.now answers.old }
    ensures { AnsweredAll image.now (names packed.entry.bytes.now packed.entry.ends.now) answers.new result }
{
    let n = packed.ends.len();
    let mut hashes: [u32; MOST_NAMES] = [0; MOST_NAMES];
    hash_names(packed, &mut hashes);
    let round = Round {
        image,
        names: packed,
        hashes: &hashes,
    };
    let mut numbers: [u16; MOST_NAMES] = [0; MOST_NAMES];
    let equals = &mut numbers[..n];
    let mut unique: [u16; MOST_NAMES] = [0; MOST_NAMES];
    let m = deduplicate(&round, &mut *equals, &mut unique);
    find_all(&round, &mut unique[..m], &mut *answers);
    let sum = sum_buckets(&*equals, &*answers);
    if m < n {
        copy_duplicates(&*equals, answers);
    }
    sum
}

// The ids of the packed names in `bytes` with these ends, in their order: an answer of four words for each. Gives how
// many buckets were read, with equal names counted once. Where the round is refused, nothing is written.
pub fn round(image: &[u8], bytes: &[u8], ends: &[u64], answers: &mut [u32]) -> Result<u64, Refusal>
    ensures answer { outcome_of result
        ≡ round_outcome image.now bytes.now ends.now (length answers.old / 4) }
    ensures leaves { answers.new
        ≡ after_round image.now bytes.now ends.now answers.old }
{
    let n = ends.len();
    if MOST_NAMES < n {
        return Err(Refusal::RoundUnfit);
    }
    let Some(packed) = PackedNames::new(bytes, ends) else {
        return Err(Refusal::RoundUnfit);
    };
    if answers.len() / 4 < n {
        return Err(Refusal::AnswersTooFew);
    }
    Ok(answer_all(image, packed, &mut answers[..4 * n]))
}
