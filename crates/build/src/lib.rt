// A whole list in one call: begin, the puts in order and one close.
#![tactic(auto)]

ghost use Rattle.std.specs.Prelude.{◌≡◌, ◌<◌, length};
ghost use Rattle.jhash.specs.Outcome.{outcome_of};
ghost use Rattle.writer.specs.State.{state_with};
ghost use Rattle.build.specs.Build.{build_refusal, building, BufferBuilt, answers_after};
ghost use Rattle.build.specs.Steps.Steps.{ListPre, ListBuilt, DirectPre, DirectTried, FinishPre, Finished};

use capacity::has_capacity;
use hashed::{any_zero, hash_list};
use image::packed::PackedNames;
use image::{HEAD_SIZE, Mode};
use jhash::refusals::Refusal;
use singly::{put_list, scratch_for_index};
use stored::write_list;
use writer::record::fresh_writer;
use writer::{CQDBWriter, Repeats};

mod capacity; // capacity.rt: has an image of all names room?
mod hashed; // hashed.rt: the hashes of all names
pub mod needs; // needs.rt: what a list needs
mod singly; // singly.rt: the puts one by one
mod stored; // stored.rt: the image of all names

// The size of the image, and the number of accepted puts.
#[derive(Clone, Copy)]
pub struct Made {
    pub size: u32,
    pub accepted: u32,
}

// The image written around the entries of a record that a close would accept: the puts know all that a close checks.
fn finish_list(w: &CQDBWriter, counts: &[u32; 256], buf: &mut [u8]) -> Made
    requires { FinishPre (state_with w.now counts.now buf.old) }
    ensures { Finished (state_with w.now counts.now buf.old) result buf.new }
{
    Made {
        size: w.write_closed(counts, buf),
        accepted: w.entries,
    }
}

// The puts one by one and one close, from a fresh record. The index of a fresh record has no entry: its slots are
// cleared.
fn build_singly(
    mode: Mode,
    repeats: Repeats,
    buf: &mut [u8],
    names: PackedNames,
    ids: &[u32],
    refusals: &mut [u32],
    scratch: &mut [u32],
) -> Made
    requires { ListPre buf.old names.ends.now ids.now refusals.old }
    ensures { ListBuilt mode repeats buf.old names.entry.bytes.now names.entry.ends.now ids.now
        refusals.old result buf.new refusals.new }
{
    let words = scratch_for_index(repeats, names.ends.len(), scratch.len());
    let slots = &mut scratch[..words];
    slots.fill(0);
    let mut counts = [0; 256];
    let mut w = fresh_writer(mode, repeats, buf.len());
    put_list(
        &mut w,
        &mut counts,
        &mut *buf,
        &mut *slots,
        names,
        ids,
        &mut *refusals,
    );
    finish_list(&w, &counts, &mut *buf)
}

// Direct path: the names are hashed, and the image of all of them is written. There is none if a name is refused or may
// be: then what the image would take of the buffer is unspecified, and so are the refusals' places.
fn build_direct(
    mode: Mode,
    repeats: Repeats,
    buf: &mut [u8],
    names: PackedNames,
    ids: &[u32],
    refusals: &mut [u32],
    scratch: &mut [u32],
) -> Option<Made>
    requires { DirectPre mode buf.old names.ends.now ids.now refusals.old }
    ensures { DirectTried mode repeats buf.old names.entry.bytes.now names.entry.ends.now ids.now
        refusals.old result buf.new refusals.new }
{
    let n = names.ends.len();
    let last = names.ends[n - 1] as usize;
    if any_zero(&names.bytes[..last]) {
        return None;
    }
    let mut counts = [0; 256];
    hash_list(names, &mut *refusals, &mut counts);
    let stop = repeats == Repeats::Off;
    let size = write_list(
        mode,
        &counts,
        &*refusals,
        &mut *buf,
        names,
        ids,
        &mut *scratch,
        stop,
    )?;
    refusals[..n].fill(0);
    let accepted = n as u32;
    Some(Made { size, accepted })
}

// A list by the direct path if the buffer has room for all names; otherwise, or if a name is refused there, by the puts
// one by one.
fn build_list(
    mode: Mode,
    repeats: Repeats,
    buf: &mut [u8],
    names: PackedNames,
    ids: &[u32],
    refusals: &mut [u32],
    scratch: &mut [u32],
) -> Made
    requires { ListPre buf.old names.ends.now ids.now refusals.old }
    ensures { ListBuilt mode repeats buf.old names.entry.bytes.now names.entry.ends.now ids.now
        refusals.old result buf.new refusals.new }
{
    if !has_capacity(mode, names.ends, ids, buf.len()) {
        return build_singly(
            mode,
            repeats,
            &mut *buf,
            names,
            ids,
            &mut *refusals,
            &mut *scratch,
        );
    }
    let direct = build_direct(
        mode,
        repeats,
        &mut *buf,
        names,
        ids,
        &mut *refusals,
        &mut *scratch,
    );
    if let Some(made) = direct {
        return made;
    }
    build_singly(
        mode,
        repeats,
        &mut *buf,
        names,
        ids,
        &mut *refusals,
        &mut *scratch,
    )
}

// The image of the names packed in `bytes` with these ends, each put with the id at its place; the number of
// each put's refusal goes to `refusals`. Refused with 14, 15 or 1, and then nothing is written. What `scratch` holds
// changes only the time, and what it holds afterwards is unspecified; so is what the buffer holds between the end of
// the image and that of an image of all names.
pub fn build(
    mode: Mode,
    repeats: Repeats,
    buf: &mut [u8],
    bytes: &[u8],
    ends: &[u64],
    ids: &[u32],
    refusals: &mut [u32],
    scratch: &mut [u32],
) -> Result<Made, Refusal>
    ensures answer { outcome_of result ≡ building mode repeats buf.old bytes.now ends.now
        ids.now
        (length refusals.old) }
    ensures leaves { BufferBuilt mode repeats buf.old bytes.now ends.now ids.now
        (length refusals.old) buf.new }
    ensures answers { refusals.new ≡ answers_after mode repeats buf.old bytes.now ends.now
        ids.now refusals.old }
    ensures untouched { 0 < build_refusal bytes.now ends.now (length ids.now)
        (length refusals.old) (length buf.old) → scratch.new ≡ scratch.old }
{
    let Some(names) = PackedNames::new(bytes, ends) else {
        return Err(Refusal::RoundUnfit);
    };
    let n = ends.len();
    if ids.len() < n {
        return Err(Refusal::AnswersTooFew);
    }
    if refusals.len() < n {
        return Err(Refusal::AnswersTooFew);
    }
    if buf.len() < HEAD_SIZE {
        return Err(Refusal::TooShort);
    }
    Ok(build_list(
        mode,
        repeats,
        &mut *buf,
        names,
        ids,
        &mut *refusals,
        &mut *scratch,
    ))
}
