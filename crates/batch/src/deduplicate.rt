// Duplicates among the names of a round, found by open addressing in slots on the stack, as in an index. A slot has the
// number of a name, counted from 1, or 0 where it is empty. A search starts at slot (hash / 256) modulo their number
// and compares names only where the whole hashes are equal: different names can have one hash.
// Kept as they are for speed (measured): arrays on the stack, and numbers of 16 bits in which 0 stands for no name.
ghost use Rattle.std.specs.Prelude.{◌≡◌, length};
ghost use Rattle.batch.specs.Steps.Duplicates.{round_names, IfZero, FindOrInsertPre, FoundOrInserted, Deduplicated};

use crate::MOST_NAMES;
use crate::names::Round;
use image::probe::{next, start};

// Eight for each name of a whole round, so that few searches meet another name.
const SLOTS: usize = 4096;

// The number, counted from 1, of a name before the i-th that equals it. 0 where there is none: then the i-th name's own
// number is stored in the first empty slot.
fn find_or_insert(round: &Round, slots: &mut [u16; SLOTS], i: usize) -> u16
    requires { FindOrInsertPre round.now slots.old i }
    ensures { FoundOrInserted (round_names round.now) round.now.hashes.now slots.new i result }
{
    let mut k = start(round.hashes[i], SLOTS);
    for _ in 0..SLOTS {
        let q = slots[k];
        if q == 0 {
            slots[k] = (i + 1) as u16;
            return 0;
        }
        if round.equal_names((q - 1) as usize, i) {
            return q;
        }
        k = next(k, SLOTS);
    }
    // Not reached: there are more slots than names.
    0
}

// x where q is 0, else 0.
pub(crate) fn if_zero(q: u16, x: u32) -> u32
    ensures { IfZero q x result }
{
    if q == 0 { x } else { 0 }
}

// Stores for each name the number of an equal one before it, or 0, and lists the indexes of the unique names, those
// that no earlier one equals. Gives how many they are. The list grows without a branch.
pub(crate) fn deduplicate(
    round: &Round,
    equals: &mut [u16],
    unique: &mut [u16; MOST_NAMES],
) -> usize
    requires { length equals.old ≡ length round.now.names.ends.now }
    ensures { Deduplicated (round_names round.now) equals.new unique.new (length equals.old) result }
{
    let mut slots: [u16; SLOTS] = [0; SLOTS];
    let mut m: usize = 0;
    for i in 0..equals.len() {
        let q = find_or_insert(round, &mut slots, i);
        equals[i] = q;
        unique[m] = i as u16;
        m += if_zero(q, 1) as usize;
    }
    m
}
