// A whole round for C, in both directions. The answers lie in words, four to an answer, as the structs of
// include/cqdb.h do. A crate of its own, as lookup_c is: the compiler inlines a large function that has one caller, and
// a round takes 4 % less time so (docs/DECISIONS.md, "Why several export crates?").
#![tactic(auto)]

ghost use Rattle.std.specs.Prelude.{◌≡◌, ◌/◌, length};
ghost use Rattle.batch.specs.Round.{round_outcome, after_round};
ghost use Rattle.batch.specs.NameRound.{name_refusal, after_names};
ghost use Rattle.batch_c.specs.RoundAnswers.{round_answer};

use jhash::refusals::refusal_number;

// The refusal's number, 0 when accepted; the buckets read over the different names, 0 when refused.
#[repr(C)]
#[derive(Clone, Copy)]
pub struct RoundAnswer {
    pub refusal: u32,
    pub buckets: u64,
}

// The ids of the packed names in `names` with these ends, or refusal 14 or 15, and nothing is written.
#[unsafe(no_mangle)]
pub extern "C" fn cqdb_round_words(
    image: &[u8],
    names: &[u8],
    ends: &[u64],
    answers: &mut [u32],
) -> RoundAnswer
    ensures answer { result ≡ round_answer (round_outcome image.now names.now ends.now
        (length answers.old / 4)) }
    ensures leaves { answers.new
        ≡ after_round image.now names.now ends.now answers.old }
{
    match batch::round(image, names, ends, answers) {
        Ok(buckets) => RoundAnswer {
            refusal: 0,
            buckets,
        },
        Err(refusal) => RoundAnswer {
            refusal: u32::from(refusal),
            buckets: 0,
        },
    }
}

// The places of the ids' names. Gives 0, or refusal 14 or 15, and nothing is written.
#[unsafe(no_mangle)]
pub extern "C" fn cqdb_name_round_words(image: &[u8], ids: &[u32], answers: &mut [u32]) -> u32
    ensures answer { result ≡ name_refusal ids.now (length answers.old / 4) }
    ensures leaves { answers.new ≡ after_names image.now ids.now answers.old }
{
    refusal_number(batch::name_round(image, ids, answers))
}
