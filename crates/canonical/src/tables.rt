// The rows of the head, and the tables: where each table is, and that only entries use buckets.
ghost use Rattle.std.specs.Prelude.{◌≡◌, cond, not, ◌||◌, ◌+◌, ◌*◌, ◌<◌, ◌≤◌, eqb, length};
ghost use Rattle.image.specs.Bytes.{word};
ghost use Rattle.canonical.specs.Steps.HiddenBuckets.{bit, used_to};
ghost use Rattle.canonical.specs.Steps.InPlace.{back_word_at};
ghost use Rattle.canonical.specs.Steps.Checks.{table_ok, rows_ok, counts_match};
ghost use Rattle.canonical.specs.Steps.Contracts.{CheckTablePre, CheckRowsPre, WordsPre};

use image::rows::Row;
use image::word_or_zero;
use jhash::word::word;

// The offset word of a part of n elements at o: 0 if there is none.
pub(super) fn offset_or_zero(n: usize, o: usize) -> usize
    ensures { result ≡ cond (eqb n 0) 0 o }
{
    if n == 0 { 0 } else { o }
}

// 1 for a number above 0, else 0.
fn used_bit(w: u32) -> usize
    ensures { result ≡ bit 1 w }
{
    usize::from(w != 0)
}

// Is the bucket at b used, or are both its words zero? Both words are always read: a branch would be mispredicted.
fn clean_bucket(image: &[u8], b: usize) -> bool
    requires { b + 8 ≤ length image.now }
    ensures { result ≡ (not (eqb (word image.now (b + 4)) 0) || eqb (word image.now b) 0) }
{
    (word(image, b + 4) != 0) | (word(image, b) == 0)
}

// Of the 2c buckets at o, are the empty ones zero, and c used? The loop has no branch on what it reads, so that the
// compiler takes several buckets at once.
fn check_table(image: &[u8], o: usize, c: usize) -> bool
    requires { CheckTablePre image.now o c }
    ensures { result ≡ table_ok image.now o c }
{
    let mut clean = true;
    let mut used: usize = 0;
    for k in 0..2 * c {
        clean &= clean_bucket(image, o + 8 * k);
        used += used_bit(word(image, o + 8 * k + 4));
    }
    clean & (used == c)
}

// Are the tables one after the other from `end` on, each with twice as many buckets as it uses? The caller knows that
// none reaches past the end of the image: opening has checked it.
pub(super) fn check_rows(image: &[u8], end: usize) -> bool
    requires { CheckRowsPre image.now end }
    ensures { result ≡ rows_ok image.now end }
{
    let mut o = end;
    for t in 0..256 {
        let table = Row::of(image, t);
        let c = table.buckets / 2;
        if table.buckets != 2 * c {
            return false;
        }
        if table.offset != offset_or_zero(c, o) {
            return false;
        }
        if !check_table(image, o, c) {
            return false;
        }
        o += 16 * c;
    }
    true
}

// Has each table the buckets that its count asks for?
pub(super) fn counts_match(image: &[u8], counts: &[u32; 256]) -> bool
    ensures { result ≡ counts_match image.now counts.now }
{
    (0..256).all(
        |t|
            requires { t < 256 }
        { Row::of(image, t).buckets == 2 * counts[t] as usize },
    )
}

// How many of the n words at o are not 0.
pub(super) fn count_used(image: &[u8], o: usize, n: usize) -> usize
    requires { WordsPre o n }
    ensures { result ≡ used_to (back_word_at image.now o) n }
{
    let mut used: usize = 0;
    for k in 0..n {
        used += used_bit(word_or_zero(image, o + 4 * k));
    }
    used
}
