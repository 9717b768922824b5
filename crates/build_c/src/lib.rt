// A whole list in one call, for C. A crate of its own for the time of a check: it takes 26 s, and a must-fail edit of
// cqdb_c or lists_c would take that, too (docs/DECISIONS.md, "Why several export crates?").
#![tactic(auto)]

ghost use Rattle.std.specs.Prelude.{◌≡◌, ◌<◌, length};
ghost use Rattle.jhash.specs.Outcome.{outcome_of, refusal_of};
ghost use Rattle.build_c.specs.Building.{built_answer, build_answer, BufferLeft, answers_built};
ghost use Rattle.build_c.specs.Needs.{needed_answer, needs_answer};

use build::Made;
use build::needs::{Needs, for_list};
use image::Mode;
use jhash::refusals::Refusal;
use writer::Repeats;
use writer::numbers::mode_of;

// The refusal's number, 0 when accepted; the image's size and the number of accepted puts, zeros when refused.
#[repr(C)]
#[derive(Clone, Copy)]
pub struct BuildAnswer {
    pub refusal: u32,
    pub size: u32,
    pub accepted: u32,
}

// The struct for what a list in one call answers.
impl From<Result<Made, Refusal>> for BuildAnswer {
    ghost from_gives = { λ made answer. answer ≡ built_answer (outcome_of made) };

    fn from(made: Result<Made, Refusal>) -> BuildAnswer {
        match made {
            Ok(made) => BuildAnswer {
                refusal: 0,
                size: made.size,
                accepted: made.accepted,
            },
            Err(refusal) => BuildAnswer {
                refusal: u32::from(refusal),
                size: 0,
                accepted: 0,
            },
        }
    }
}

// A list in one call, with the numbers of mode and repeats mode read first.
fn build_numbered(
    mode: u32,
    repeats: u32,
    buf: &mut [u8],
    names: &[u8],
    ends: &[u64],
    ids: &[u32],
    refusals: &mut [u32],
    scratch: &mut [u32],
) -> Result<Made, Refusal>
    ensures answer { built_answer (outcome_of result) ≡ build_answer mode repeats buf.old names.now ends.now ids.now
        (length refusals.old) }
    ensures leaves { BufferLeft mode repeats buf.old names.now ends.now ids.now
        (length refusals.old) buf.new }
    ensures answers { refusals.new ≡ answers_built mode repeats buf.old names.now
        ends.now ids.now refusals.old }
    ensures untouched { 0 < refusal_of result → scratch.new ≡ scratch.old }
{
    let image_mode = Mode::try_from(mode)?;
    let choice = Repeats::try_from(repeats)?;
    build::build(image_mode, choice, buf, names, ends, ids, refusals, scratch)
}

// Puts each name with its id and closes, with the number of each put's refusal in `refusals`; or refusal 2 for a mode
// or a repeats mode that is neither 0 nor 1, then 14, 15 or 1, and nothing is written.
#[unsafe(no_mangle)]
pub extern "C" fn cqdb_build_parts(
    mode: u32,
    repeats: u32,
    buf: &mut [u8],
    names: &[u8],
    ends: &[u64],
    ids: &[u32],
    refusals: &mut [u32],
    scratch: &mut [u32],
) -> BuildAnswer
    ensures answer { result ≡ build_answer mode repeats buf.old names.now ends.now ids.now
        (length refusals.old) }
    ensures leaves { BufferLeft mode repeats buf.old names.now ends.now ids.now
        (length refusals.old) buf.new }
    ensures answers { refusals.new ≡ answers_built mode repeats buf.old names.now
        ends.now ids.now refusals.old }
    ensures untouched { 0 < result.refusal → scratch.new ≡ scratch.old }
{
    BuildAnswer::from(build_numbered(mode, repeats, buf, names, ends, ids, refusals, scratch))
}

// How many bytes and words a list needs.
#[repr(C)]
#[derive(Clone, Copy)]
pub struct NeedsAnswer {
    pub bytes: u64,
    pub words: u64,
}

// The same numbers in C's struct.
impl From<Needs> for NeedsAnswer {
    ghost from_gives = { λ needs answer. answer ≡ needed_answer needs };

    fn from(needs: Needs) -> NeedsAnswer {
        NeedsAnswer {
            bytes: needs.bytes,
            words: needs.words,
        }
    }
}

// What a list of names, which have `size` bytes together, with these ids needs; 2^64 - 1 where it is more. Every mode
// but 0 is one-way.
#[unsafe(no_mangle)]
pub extern "C" fn cqdb_build_needs(mode: u32, size: usize, ids: &[u32]) -> NeedsAnswer
    ensures { result ≡ needs_answer mode size ids.now }
{
    NeedsAnswer::from(for_list(mode_of(mode), size as u64, ids))
}
