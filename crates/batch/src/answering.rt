// The answers of a round in their places, four words each.
ghost use Rattle.std.specs.Prelude.{◌≡◌, ◌≤◌, length};
ghost use Rattle.reader.specs.Cases.{lookup_of};
ghost use Rattle.reader.specs.Lookup.{lookup_by};
ghost use Rattle.batch.specs.Round.{answer_words};
ghost use Rattle.batch.specs.Steps.Answers.{put_words, words_in, HasPlace, CopyAnswerPre, PutDecidedPre};
ghost use Rattle.batch.specs.Steps.Answers.{PassCount, ListedNames, DecidedNames, OpenNames};
ghost use Rattle.batch.specs.Steps.Answers.{Answered, EqualsPre, SumsUnique, AllAnswered, Source};

use super::deduplicate::if_zero;
use super::probing::pass;
use crate::MOST_NAMES;
use crate::names::Round;
use image::HEAD_SIZE;
use reader::lookup::{probe_entry, search_from};
use reader::{Probe, ToId};

// How many buckets the passes read for each name. In tables half full, of 512 searches that find nothing 35 are open
// after five buckets and 8 after eight.
const PASSES: u32 = 8;

// Stores four words in the i-th place.
pub(crate) fn put_words(answers: &mut [u32], i: usize, words: [u32; 4])
    requires { HasPlace answers.old i }
    ensures { answers.new ≡ put_words answers.old i words }
{
    let at = 4 * i;
    answers[at] = words[0];
    answers[at + 1] = words[1];
    answers[at + 2] = words[2];
    answers[at + 3] = words[3];
}

// Stores a lookup's answer in the i-th place. Each case stores its own words: joined first, they take longer
// (measured).
fn put_answer(answers: &mut [u32], i: usize, answer: ToId)
    requires { HasPlace answers.old i }
    ensures { answers.new ≡ put_words answers.old i (answer_words (lookup_of answer)) }
{
    match answer.hit {
        Some(hit) => put_words(answers, i, [1, hit.id, answer.buckets, hit.offset]),
        None => put_words(answers, i, [0, 0, answer.buckets, 0]),
    }
}

// Copies the answer of one place to another.
fn copy_answer(answers: &mut [u32], from: usize, to: usize)
    requires { CopyAnswerPre answers.old from to }
    ensures { answers.new ≡ put_words answers.old to (words_in answers.old from) }
{
    let at = 4 * from;
    let words = [
        answers[at],
        answers[at + 1],
        answers[at + 2],
        answers[at + 3],
    ];
    put_words(answers, to, words);
}

// Stores the answer of name i, whose search is decided by bucket c, which has this offset. If the entry there has
// another name, the search goes on. The name is not too long for a hash. Each case stores its own words, for speed
// (measured): the words of a search that finds nothing are then the same for a whole pass.
fn put_decided(
    image: &[u8],
    name: &[u8],
    h: u32,
    offset: u32,
    c: u32,
    answers: &mut [u32],
    i: usize,
)
    requires { PutDecidedPre image.now name.now answers.old h offset c i }
    ensures { answers.new
        ≡ put_words answers.old i (answer_words (lookup_by image.now name.now h)) }
{
    if offset == 0 {
        put_words(answers, i, [0, 0, c, 0]);
        return;
    }
    match probe_entry(image, name, offset) {
        Probe::Pass => put_answer(answers, i, search_from(image, name, h, c)),
        Probe::Ends => put_words(answers, i, [0, 0, c, 0]),
        Probe::Hit(hit) => put_words(answers, i, [1, hit.id, c, hit.offset]),
    }
}

// Stores the answers of the listed names: bucket c of the search for each has the offset beside it. This function and
// `find_open` differ in one call; one function with a closure for it would be no plainer, since each closure would have
// to repeat the clauses of its call.
fn find_decided(round: &Round, list: &[u16], offsets: &[u32], c: u32, answers: &mut [u32])
    requires { DecidedNames round.now list.now offsets.now answers.old c }
    ensures { Answered round.now list.now answers.old answers.new (length list.now) }
{
    for (x, number) in list.iter().enumerate() {
        let i = *number as usize;
        put_decided(
            round.image,
            round.name(i),
            round.hashes[i],
            offsets[x],
            c,
            &mut *answers,
            i,
        );
    }
}

// Stores the answers of the listed names, whose searches are open after c buckets.
fn find_open(round: &Round, list: &[u16], c: u32, answers: &mut [u32])
    requires { OpenNames round.now list.now answers.old c }
    ensures { Answered round.now list.now answers.old answers.new (length list.now) }
{
    for number in list {
        let i = *number as usize;
        let answer = search_from(round.image, round.name(i), round.hashes[i], c);
        put_answer(&mut *answers, i, answer);
    }
}

// How many passes are made: none over an image without a head, nor where a name may be too long to be searched for.
fn pass_count(image: &[u8], bytes: &[u8]) -> u32
    ensures { PassCount image.now bytes.now result }
{
    if image.len() < HEAD_SIZE || 4294967295 <= bytes.len() {
        return 0;
    }
    PASSES
}

// Stores the answers of the names listed in `live`, no two of which are equal, and writes no other place. First passes
// are made, and then each search that is still open goes on by itself. The lists of a pass are arrays on the stack, for
// speed (measured).
pub(crate) fn find_all(round: &Round, live: &mut [u16], answers: &mut [u32])
    requires { ListedNames round.now live.old answers.old }
    ensures { Answered round.now live.old answers.old answers.new (length live.old) }
{
    let mut done: [u16; MOST_NAMES] = [0; MOST_NAMES];
    let mut offsets: [u32; MOST_NAMES] = [0; MOST_NAMES];
    let passes = pass_count(round.image, round.names.bytes);
    let mut q = live.len();
    for c in 0..passes {
        let open = pass(round, c, &mut live[..q], &mut done, &mut offsets);
        let d = q - open;
        find_decided(round, &done[..d], &offsets[..d], c + 1, &mut *answers);
        q = open;
    }
    find_open(round, &live[..q], passes, answers);
}

// The sum of the buckets read for the unique ones of the names. The passes answer names out of order, so the sum is
// taken here, from the stored answers in the order of the names. There is no branch.
pub(crate) fn sum_buckets(equals: &[u16], answers: &[u32]) -> u64
    requires { EqualsPre equals.now answers.now }
    ensures { SumsUnique equals.now answers.now result }
{
    let mut sum: u64 = 0;
    for (i, q) in equals.iter().enumerate() {
        sum += if_zero(*q, answers[4 * i + 2]) as u64;
    }
    sum
}

// The place of the i-th name's answer: its own, or that of the equal name before, whose number, counted from 1, is q.
fn source(i: usize, q: usize) -> usize
    requires { q ≤ i }
    ensures { Source i q result }
{
    if q == 0 { i } else { q - 1 }
}

// Copies to each name's place the answer of the equal name before; a unique name's is copied to where it stands, so
// there is no branch.
pub(crate) fn copy_duplicates(equals: &[u16], answers: &mut [u32])
    requires { EqualsPre equals.now answers.old }
    ensures { AllAnswered equals.now answers.old answers.new }
{
    for (i, q) in equals.iter().enumerate() {
        let from = source(i, *q as usize);
        copy_answer(&mut *answers, from, i);
    }
}
