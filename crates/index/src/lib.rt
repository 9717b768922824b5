// The index of the names that a buffer holds, in lent words, and a put that probes it: with repeats off it compares the
// name only with entries whose hash is equal, where `CQDBWriter::put` walks all earlier ones.
#![tactic(auto)]

ghost use Rattle.std.specs.Prelude.{◌≡◌};
ghost use Rattle.jhash.specs.NameHash.{hash_or_zero};
ghost use Rattle.jhash.specs.Outcome.{refusal_of};
ghost use Rattle.writer.specs.State.{state_with};
ghost use Rattle.writer.specs.Put.{entry_of};
ghost use Rattle.index.specs.Promise.{PutIndexed, Indexed};
ghost use Rattle.index.specs.Steps.Decided.{Decided};
ghost use Rattle.index.specs.Steps.Fill.{FillPre, SlotsFilled};

use checks::{check_early, check_late};
use image::HEAD_SIZE;
use image::entries::{name_at, whole_length};
use jhash::refusals::Refusal;
use slots::{first_empty_slot, search, store_slot};
use writer::{CQDBWriter, Repeats};

mod checks; // checks.rt: what a put checks beside the search
mod slots; // slots.rt: slots probed and stored

// All checks of a put of a name with hash h, with the bounds that its stores need: the slot that it takes, which is
// none with repeats on. What is lent may be anything.
fn decide(
    w: &CQDBWriter,
    counts: &[u32; 256],
    buf: &[u8],
    slots: &[u32],
    name: &[u8],
    id: u32,
    h: u32,
) -> Result<Option<usize>, Refusal>
    requires { h ≡ hash_or_zero name.now }
    ensures { Decided (state_with w.now counts.now buf.now) slots.now
        (entry_of name.now id) h result }
{
    check_early(w, buf, name)?;
    let end = w.end as usize;
    let sought = w.repeats == Repeats::Off;
    let slot = search(sought, &buf[..end], slots, h, name)?;
    check_late(w, counts, name.len(), id, h)?;
    if sought && slot.is_none() {
        return Err(Refusal::IndexFull);
    }
    Ok(slot)
}

// Appends an entry and with repeats off stores its slot, or is refused and changes nothing. With a right index it does
// what `CQDBWriter::put` does, but refuses with `IndexFull` where put would accept, repeats are off and every slot is
// taken.
pub fn put_indexed(
    w: &mut CQDBWriter,
    counts: &mut [u32; 256],
    buf: &mut [u8],
    slots: &mut [u32],
    name: &[u8],
    id: u32,
) -> Result<(), Refusal>
    ensures { PutIndexed (state_with w.old counts.old buf.old) slots.old
        (entry_of name.now id) (refusal_of result)
        (state_with w.new counts.new buf.new) slots.new }
{
    let h = jhash::hash_or_zero(name);
    let slot = decide(&*w, &*counts, &*buf, &*slots, name, id, h)?;
    if let Some(k) = slot {
        store_slot(slots, k, h, w.end as u32);
    }
    w.append(counts, buf, name, id, h);
    Ok(())
}

// Inserts the entries of the buffer into cleared slots, in put order. The caller knows that the entries are whole and
// that there is a slot for each, so none of the early returns is reached.
fn fill(buf: &[u8], end: usize, entries: u32, slots: &mut [u32])
    requires { FillPre buf.now end entries slots.old }
    ensures { SlotsFilled buf.now end entries slots.old slots.new }
{
    let mut at = HEAD_SIZE;
    for _ in 0..entries {
        let Some(n) = whole_length(buf, at, end) else {
            return;
        };
        let Ok(h) = jhash::name_hash(name_at(buf, at, n)) else {
            return;
        };
        let Some(k) = first_empty_slot(&*slots, h) else {
            return;
        };
        store_slot(&mut *slots, k, h, at as u32);
        at += 8 + n;
    }
}

// Makes the index of the entries in the buffer, or is refused and changes nothing: with close's refusals, and with
// `IndexFull` where there are more entries than slots. For a fresh record every slot is empty.
pub fn index(
    w: &CQDBWriter,
    counts: &[u32; 256],
    buf: &[u8],
    slots: &mut [u32],
) -> Result<(), Refusal>
    ensures { Indexed (state_with w.now counts.now buf.now) slots.old (refusal_of result) slots.new }
{
    w.check_close(counts, buf)?;
    let m = slots.len() / 2;
    if m < w.entries as usize {
        return Err(Refusal::IndexFull);
    }
    slots[..2 * m].fill(0);
    fill(buf, w.end as usize, w.entries, slots);
    Ok(())
}
