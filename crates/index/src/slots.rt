// Slots probed and stored: two words each, a hash and the offset of an entry. An offset of 0 marks an empty slot.
ghost use Rattle.std.specs.Prelude.{◌≡◌, false, cond, ℕ, ◌<◌, MatchOption};
ghost use Rattle.index.specs.Index.{slot_count, slot_at, slot_stored};
ghost use Rattle.index.specs.Probe.{has_name_at, probe_slots};
ghost use Rattle.index.specs.Steps.Probed.{Probed, SlotProbed};

use image::probe::{next, start};
use jhash::refusals::Refusal;
use reader::Probe;
use reader::lookup::probe_entry;

// Has the entry at an offset this name?
fn has_name(bytes: &[u8], name: &[u8], at: u32) -> bool
    ensures { result ≡ has_name_at bytes.now name.now at }
{
    match probe_entry(bytes, name, at) {
        Probe::Hit(_) => true,
        _ => false,
    }
}

// The hash in a slot.
fn slot_hash(slots: &[u32], k: usize) -> u32
    requires { k < slot_count slots.now }
    ensures { result ≡ (slot_at slots.now k).hash }
{
    slots[2 * k]
}

// The offset in a slot.
fn offset_at(slots: &[u32], k: usize) -> u32
    requires { k < slot_count slots.now }
    ensures { result ≡ (slot_at slots.now k).at }
{
    slots[2 * k + 1]
}

// Probes the slots for a name of hash h: refused if an entry has it, otherwise the first empty slot, if one is empty.
fn probe(bytes: &[u8], slots: &[u32], h: u32, name: &[u8]) -> Result<Option<usize>, Refusal>
    ensures { Probed (slot_count slots.now) (probe_slots slots.now h (has_name_at bytes.now name.now)) result }
{
    let m = slots.len() / 2;
    if m == 0 {
        return Ok(None);
    }
    let mut k = start(h, m);
    for _ in 0..m {
        let at = offset_at(slots, k);
        if at == 0 {
            return Ok(Some(k));
        }
        if slot_hash(slots, k) == h && has_name(bytes, name, at) {
            return Err(Refusal::Repeated);
        }
        k = next(k, m);
    }
    Ok(None)
}

// The same where the name is sought; otherwise there is no slot, and none is read.
pub(super) fn search(
    sought: bool,
    bytes: &[u8],
    slots: &[u32],
    h: u32,
    name: &[u8],
) -> Result<Option<usize>, Refusal>
    ensures { Probed (slot_count slots.now)
        (cond sought (probe_slots slots.now h (has_name_at bytes.now name.now)) (slot_count slots.now)) result }
{
    if !sought {
        return Ok(None);
    }
    probe(bytes, slots, h, name)
}

// The probe without a name, for making the index. A function of its own, since `probe` with two callers is not
// inlined, which costs 4 % of a put.
pub(super) fn first_empty_slot(slots: &[u32], h: u32) -> Option<usize>
    ensures { MatchOption result (probe_slots slots.now h (λ (a : ℕ). false) ≡ slot_count slots.now)
        (SlotProbed (slot_count slots.now) (probe_slots slots.now h (λ (a : ℕ). false))) }
{
    let m = slots.len() / 2;
    if m == 0 {
        return None;
    }
    let mut k = start(h, m);
    for _ in 0..m {
        if offset_at(slots, k) == 0 {
            return Some(k);
        }
        k = next(k, m);
    }
    None
}

// Stores hash and offset in a slot.
pub(super) fn store_slot(slots: &mut [u32], k: usize, h: u32, at: u32)
    requires { k < slot_count slots.old }
    ensures { slots.new ≡ slot_stored slots.old k h at }
{
    slots[2 * k] = h;
    slots[2 * k + 1] = at;
}
