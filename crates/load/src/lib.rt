// A load anyone can rebuild: the entries that a seed gives, put two-way in repeats mode and closed (02 (xiii)).
#![tactic(auto)]

ghost use Rattle.std.specs.Prelude.{◌≡◌};
ghost use Rattle.jhash.specs.Outcome.{outcome_of};
ghost use Rattle.writer.specs.State.{state_with};
ghost use Rattle.load.specs.Load.{put_from, loading, after_load};

use image::Mode;
use jhash::refusals::Refusal;
use states::{state_name, stepped};
use writer::{CQDBWriter, Repeats};

mod states;

// Puts the entries of a seed until 4,096 are accepted or one is refused.
fn put_entries(w: &mut CQDBWriter, counts: &mut [u32; 256], buf: &mut [u8], seed: u32)
    ensures { state_with w.new counts.new buf.new
        ≡ put_from seed 4096 0 (state_with w.old counts.old buf.old) }
{
    let mut state = seed;
    for i in 0..4096 {
        let next = stepped(state);
        let name = state_name(next);
        if w.put(counts, buf, &name, i).is_err() {
            return;
        }
        state = next;
    }
}

// The load of a seed in the lent buffer: begun, put and closed. It gives the number of accepted entries, also where
// close refuses them. A buffer too short to begin is refused, and nothing is written.
pub fn load(seed: u32, buf: &mut [u8]) -> Result<u32, Refusal>
    ensures answer { outcome_of result ≡ loading seed buf.old }
    ensures leaves { buf.new ≡ after_load seed buf.old }
{
    let mut counts = [0; 256];
    let mut w = writer::begin(Mode::Twoway, Repeats::On, &mut counts, &*buf)?;
    put_entries(&mut w, &mut counts, buf, seed);
    let _ = w.close(&counts, buf);
    Ok(w.entries)
}
