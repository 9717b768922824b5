// A pass of a round: each search that is still open reads its next bucket. As long as each table has another bucket,
// no branch of the pass depends on the names, so none is mispredicted and the processor reads the buckets of many
// names at once.
ghost use Rattle.std.specs.Prelude.{◌≡◌, ◌+◌, ◌-◌, length};
ghost use Rattle.batch.specs.Steps.Probing.{passes, ProbeNextPre, NextProbed, PassPre, OpenOrDecided};

use crate::MOST_NAMES;
use crate::names::Round;
use jhash::word::word;
use reader::Image;
use reader::lookup::bucket_after;

// The next bucket of a search: the offset in it, and whether the search stays open after it.
#[derive(Clone, Copy)]
struct BucketProbe {
    offset: u32,
    stays: bool,
}

// Does a search for the hash h go past a bucket with this hash and offset: another hash, and not empty?
fn goes_past(hash: u32, h: u32, offset: u32) -> bool
    ensures { result ≡ passes hash h offset }
{
    (hash != h) & (offset != 0)
}

// The bucket that the search for the hash h reads after c others. Where its table has no more, none is read and the
// search stays open.
fn probe_next(image: Image, h: u32, c: u32) -> BucketProbe
    requires { ProbeNextPre image.bytes.now h c }
    ensures { NextProbed image.entry.bytes.now h (c + 1) result.offset result.stays }
{
    let table = image.table(h);
    let n = table.n;
    if n <= c {
        return BucketProbe {
            offset: 0,
            stays: true,
        };
    }
    let k = bucket_after(h, c, n) as usize;
    let at = table.at as usize + 8 * k;
    let offset = word(image.bytes, at + 4);
    let stays = goes_past(word(image.bytes, at), h, offset);
    BucketProbe { offset, stays }
}

// Each of the open searches listed in `live` reads its next bucket, after c. Those that stay open move to the front;
// the others are listed in `done`, with the offset in the bucket. Gives how many stay open.
// The lists are filled by hand for speed (measured): each search is stored in both, and one of them grows, so there is
// no branch.
pub(crate) fn pass(
    round: &Round,
    c: u32,
    live: &mut [u16],
    done: &mut [u16; MOST_NAMES],
    offsets: &mut [u32; MOST_NAMES],
) -> usize
    requires { PassPre round.now.image.now round.now.hashes.now live.old c }
    ensures { OpenOrDecided round.now.image.now round.now.hashes.now live.old live.new
        done.new offsets.new (c + 1) result (length live.old - result) (length live.old) }
{
    let image = Image { bytes: round.image };
    let mut p: usize = 0;
    let mut d: usize = 0;
    for z in 0..live.len() {
        let i = live[z];
        let b = probe_next(image, round.hashes[i as usize], c);
        live[p] = i;
        done[d] = i;
        offsets[d] = b.offset;
        p += b.stays as usize;
        d += !b.stays as usize;
    }
    p
}
