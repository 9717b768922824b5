// Rotations: 131,072 words rotated by one amount. `jhash` is asked with an amount that the compiler does not know, so
// its table is read; and once more with 32 more, which has to give the same. The hash rotates by constants, so these
// lines alone read the table.
use super::hex;
use super::verdict::Verdict;

const WORDS: u32 = 131072;

// What became of the words at one amount: how many answers were not the library's own rotation, and the sum of all.
#[derive(Clone, Copy, Default)]
struct Tally {
    different: u64,
    sum: u64,
}

// The word after x, so that all are different.
fn next(x: u32) -> u32 {
    x.wrapping_mul(1664525).wrapping_add(1013904223)
}

impl Tally {
    // One word more. The sums stay far below 2^64.
    fn add(&mut self, x: u32, k: u32) {
        let r = jhash::rotate_left(x, k);
        if r != x.rotate_left(k) || r != jhash::rotate_left(x, k.wrapping_add(32)) {
            self.different = self.different.wrapping_add(1);
        }
        self.sum = self.sum.wrapping_add(r as u64);
    }

    // All words at one amount.
    fn at_amount(k: u32) -> Tally {
        let mut tally = Tally::default();
        let mut x = 0;
        for _ in 0..WORDS {
            tally.add(x, k);
            x = next(x);
        }
        tally
    }
}

// The verdict on an amount and the two halves of the sum.
pub(super) fn line(amount: &[u8], high: &[u8], low: &[u8]) -> Option<Verdict> {
    let k = hex::number(amount)?;
    if 31 < k {
        return None;
    }
    let tally = Tally::at_amount(k);
    let same = hex::number(high) == Some((tally.sum >> 32) as u32)
        && hex::number(low) == Some((tally.sum & 0xffff_ffff) as u32);
    Some(Verdict::from(tally.different == 0 && same))
}
