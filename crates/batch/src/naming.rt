// Ids in and names out: the places of the names of a whole round.
ghost use Rattle.std.specs.Prelude.{◌≡◌, ◌*◌, ◌/◌, ◌<◌, length};
ghost use Rattle.jhash.specs.Outcome.{refusal_of};
ghost use Rattle.reader.specs.Cases.{naming_of};
ghost use Rattle.reader.specs.Naming.{length_in};
ghost use Rattle.batch.specs.Steps.Answers.{put_words, HasPlace};
ghost use Rattle.batch.specs.NameRound.{place_words, name_words, name_refusal, after_names};

use super::answering::put_words;
use crate::MOST_NAMES;
use jhash::refusals::Refusal;
use reader::Place;

// Stores where a name stands in the image, the start low word first, or four zeros for no name, in the i-th place. The
// name's length is a word. Each case stores its own words: joined first, they take longer (measured).
fn put_place(answers: &mut [u32], i: usize, named: Option<Place>)
    requires inside { HasPlace answers.old i }
    requires short { length_in (naming_of named) < 4294967296 }
    ensures { answers.new ≡ put_words answers.old i (place_words (naming_of named)) }
{
    match named {
        Some(Place { start, len }) => {
            let low = (start % 4294967296) as u32;
            let high = (start / 4294967296) as u32;
            put_words(answers, i, [1, len as u32, low, high])
        }
        None => put_words(answers, i, [0, 0, 0, 0]),
    }
}

// Stores the places of the names of all ids, in their order.
fn name_all(image: &[u8], ids: &[u32], answers: &mut [u32])
    requires { length answers.old ≡ 4 * length ids.now }
    ensures { answers.new ≡ name_words image.now ids.now }
{
    for (i, id) in ids.iter().enumerate() {
        put_place(&mut *answers, i, reader::to_str(image, *id));
    }
}

// For each id the place of its name or nothing, an answer of four words: 1, the length, and the start, low word first;
// or four zeros. Where it is refused, nothing is written.
pub fn name_round(image: &[u8], ids: &[u32], answers: &mut [u32]) -> Result<(), Refusal>
    ensures answer { refusal_of result ≡ name_refusal ids.now (length answers.old / 4) }
    ensures leaves { answers.new ≡ after_names image.now ids.now answers.old }
{
    let n = ids.len();
    if MOST_NAMES < n {
        return Err(Refusal::RoundUnfit);
    }
    if answers.len() / 4 < n {
        return Err(Refusal::AnswersTooFew);
    }
    name_all(image, ids, &mut answers[..4 * n]);
    Ok(())
}
