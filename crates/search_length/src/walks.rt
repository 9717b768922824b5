// The search lengths of the entries of a canonical image, in one walk over them.
ghost use Rattle.search_length.specs.Steps.Contracts.{Bin, CountPre, Counted};

use image::entries::name_at;
use image::{HEAD_SIZE, size_or_zero};
use reader::to_id;

// The place of a length among the 16 counts.
fn bin_of(n: u32) -> usize
    ensures { Bin n result }
{
    n.saturating_sub(1).min(15) as usize
}

// Looks the names of the n entries of a canonical image up: how many entries have each length, and the total. The 16
// counts are 0 before.
pub(super) fn count_lengths(image: &[u8], n: u32, counts: &mut [u32; 16]) -> u64
    requires { CountPre image.now n counts.old }
    ensures { Counted image.now counts.new result }
{
    let mut at = HEAD_SIZE;
    let mut sum: u64 = 0;
    for _ in 0..n {
        let len = size_or_zero(image, at + 4);
        let length = to_id(image, name_at(image, at, len)).buckets;
        sum += length as u64;
        counts[bin_of(length)] += 1;
        at += 8 + len;
    }
    sum
}
