// Entries partitioned by table: the pair of hash and offset of each, in put order, stored where its table will stand.
ghost use Rattle.std.specs.Prelude.{◌≡◌, ◌<◌};
ghost use Rattle.serialize.specs.Steps.Insertion.{InsertEntriesPre};
ghost use Rattle.serialize.specs.Steps.Partition.{pair_put, PairAppended, EntryPartitioned, partitioned_from};

use super::insert::{entry_hash, store_back, store_pair};
use image::{HEAD_SIZE, Mode};

// A pair stored at `at` where the buffer has room for it.
fn put_pair(buf: &mut [u8], at: u32, h: u32, offset: u32)
    ensures { buf.new ≡ pair_put buf.old at h offset }
{
    if at as usize + 8 <= buf.len() {
        store_pair(&mut *buf, at as usize, h, offset);
    }
}

// The pair of an entry of hash h at `at`, stored behind the pairs of its table.
fn append_pair(buf: &mut [u8], places: &mut [u32; 256], h: u32, at: u32)
    ensures { PairAppended places.old buf.old h at places.new buf.new }
{
    let t = (h % 256) as usize;
    let p = places[t];
    put_pair(&mut *buf, p, h, at);
    places[t] = p.wrapping_add(8);
}

// An entry of this id and hash at `at`: its pair appended, and its offset stored in the back array. An internal
// function for the crates above.
pub fn partition_entry(
    mode: Mode,
    back_offset: usize,
    buf: &mut [u8],
    places: &mut [u32; 256],
    at: u32,
    id: u32,
    h: u32,
)
    requires { back_offset < 4294967296 }
    ensures { EntryPartitioned mode back_offset at id h places.old buf.old places.new
        buf.new }
{
    append_pair(&mut *buf, &mut *places, h, at);
    store_back(mode, &mut *buf, back_offset, id, at);
}

// The entries from 2,072 on, one after the other.
pub(super) fn partition_entries(
    mode: Mode,
    back_offset: usize,
    buf: &mut [u8],
    places: &mut [u32; 256],
    end: usize,
    entries: u32,
)
    requires { InsertEntriesPre back_offset end buf.old }
    ensures { buf.new
        ≡ partitioned_from mode back_offset end entries 2072 places.old buf.old }
{
    let mut at = HEAD_SIZE;
    for _ in 0..entries {
        let Some(n) = image::entries::whole_length(&*buf, at, end) else {
            return;
        };
        let id = image::word_or_zero(&*buf, at);
        let h = entry_hash(&*buf, at, n);
        partition_entry(mode, back_offset, &mut *buf, &mut *places, at as u32, id, h);
        at += 8 + n;
    }
}
