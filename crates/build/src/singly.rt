// The puts of a list, one by one: by an index in the scratch memory, in constant time, or without memory by the rule's
// own put, which walks all earlier entries where repeats are off.
ghost use Rattle.jhash.specs.Outcome.{refusal_of};
ghost use Rattle.writer.specs.State.{state_with};
ghost use Rattle.writer.specs.Put.{entry_of};
ghost use Rattle.build.specs.Steps.Steps.{ScratchForIndex, PutPre, PutPost, PutListPre, PutListPost};

use image::packed::PackedNames;
use index::put_indexed;
use jhash::refusals::{Refusal, refusal_number};
use writer::{CQDBWriter, Repeats};

// How many words of the scratch memory are the index of n names: 5 a name, or what there is; a slot has two. 0 where
// there is less than a slot a name, and with repeats on, where no put looks for its name.
pub(crate) fn scratch_for_index(repeats: Repeats, n: usize, words: usize) -> usize
    ensures { ScratchForIndex n words result }
{
    match repeats {
        Repeats::On => 0,
        Repeats::Off => {
            if words / 2 < n {
                return 0;
            }
            if words / 5 < n {
                return words;
            }
            5 * n
        }
    }
}

// A put by the index, or without slots by the rule.
fn put_name(
    w: &mut CQDBWriter,
    counts: &mut [u32; 256],
    buf: &mut [u8],
    slots: &mut [u32],
    name: &[u8],
    id: u32,
) -> Result<(), Refusal>
    requires { PutPre (state_with w.old counts.old buf.old) slots.old }
    ensures { PutPost (state_with w.old counts.old buf.old) slots.old
        (entry_of name.now id) (refusal_of result)
        (state_with w.new counts.new buf.new) slots.new }
{
    if slots.is_empty() {
        return w.put(counts, buf, name, id);
    }
    put_indexed(w, counts, buf, slots, name, id)
}

// The puts of all names in their order, with the number of each put's refusal.
pub(crate) fn put_list(
    w: &mut CQDBWriter,
    counts: &mut [u32; 256],
    buf: &mut [u8],
    slots: &mut [u32],
    names: PackedNames,
    ids: &[u32],
    refusals: &mut [u32],
)
    requires { PutListPre w.old counts.old buf.old slots.old names.ends.now ids.now refusals.old }
    ensures { PutListPost w.old buf.old names.entry.bytes.now names.entry.ends.now ids.now
        refusals.old (state_with w.new counts.new buf.new) refusals.new }
{
    for i in 0..names.ends.len() {
        let name = names.name(i);
        let done = put_name(&mut *w, &mut *counts, &mut *buf, &mut *slots, name, ids[i]);
        refusals[i] = refusal_number(done);
    }
}
