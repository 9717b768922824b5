// Whether an image is one to one: each name has one id, and each id one name. The image alone is lent.
#![tactic(auto)]

ghost use Rattle.std.specs.Prelude.{◌≡◌};
ghost use Rattle.reader.specs.Lookup.{lookup};
ghost use Rattle.lookup_laws.specs.Answer.{found_id, name_given};
ghost use Rattle.canonical.specs.Canonical.{mode_in};
ghost use Rattle.canonical.specs.Steps.Contracts.{CanonicalWithEntries};
ghost use Rattle.one_to_one.specs.OneToOne.{is_id, is_name, asked, first_failure_in, one_to_one};
ghost use Rattle.one_to_one.specs.OneToOne.{failure_of, one_to_one_of};

use canonical::{entry_count, is_canonical};
use image::entries::name_at;
use image::equality::same;
use image::head::FLAG_AT;
use image::{HEAD_SIZE, Mode, size_or_zero, word_or_zero};
use jhash::refusals::Refusal;
use reader::{name_given, to_id};

// How an entry fails: its name finds another id, or its id gives another name. The offset is that of the entry.
#[derive(Clone, Copy, Debug, PartialEq, Eq)]
pub enum Failure {
    OtherId { offset: u32 },
    OtherName { offset: u32 },
}

// Does the name find this id?
fn finds_id(image: &[u8], name: &[u8], id: u32) -> bool
    ensures { result ≡ is_id (found_id (lookup image.now name.now)) id }
{
    to_id(image, name).hit.is_some_and(|hit| hit.id == id)
}

// Does the id give this name? True in a one-way image, where no id gives a name.
fn gives_name(image: &[u8], mode: Mode, id: u32, name: &[u8]) -> bool
    ensures { result ≡ asked mode (is_name (name_given image.now id) name.now) }
{
    match mode {
        Mode::Twoway => name_given(image, id).is_some_and(|given| same(given, name)),
        Mode::Oneway => true,
    }
}

// The direction that an image's flag word says.
fn mode_in(image: &[u8]) -> Mode
    ensures { result ≡ mode_in image.now }
{
    if word_or_zero(image, FLAG_AT) == 0 {
        Mode::Twoway
    } else {
        Mode::Oneway
    }
}

// The first of the n entries of a canonical image that fails.
fn first_failure(image: &[u8], n: u32) -> Option<Failure>
    requires { CanonicalWithEntries image.now n }
    ensures { failure_of result ≡ first_failure_in image.now }
{
    let mode = mode_in(image);
    let mut at = HEAD_SIZE;
    for _ in 0..n {
        let len = size_or_zero(image, at + 4);
        let name = name_at(image, at, len);
        let id = word_or_zero(image, at);
        let offset = at as u32;
        if !finds_id(image, name, id) {
            return Some(Failure::OtherId { offset });
        }
        if !gives_name(image, mode, id, name) {
            return Some(Failure::OtherName { offset });
        }
        at += 8 + len;
    }
    None
}

// Does each entry's name find its id, and its id give its name? If not, the first entry, in put order, that fails.
// Refused if the image is not canonical.
pub fn one_to_one(image: &[u8]) -> Result<Option<Failure>, Refusal>
    ensures { one_to_one_of result ≡ one_to_one image.now }
{
    if !is_canonical(image) {
        return Err(Refusal::NotCanonical);
    }
    Ok(first_failure(image, entry_count(image)))
}
