// The name hash: Bob Jenkins's hashlittle (lookup3) over a name and one zero byte.
#![tactic(auto)]

ghost use Rattle.std.specs.Prelude.{◌≡◌, ◌+◌, ◌*◌, ◌/◌, ◌%◌, ◌^◌, ◌<◌, ◌≤◌, [], ◌∷◌, ◌++◌, length, nat_le};
ghost use Rattle.jhash.specs.Lookup3.{sub32, rotl32, plus, added, mix, final_word, final};
ghost use Rattle.jhash.specs.Lookup3.{equal_words, initial_word, hash_rest};
ghost use Rattle.jhash.specs.Steps.Rounds.{mix_round, final_step};
ghost use Rattle.jhash.specs.Outcome.{outcome_of};
ghost use Rattle.jhash.specs.NameHash.{hash_outcome, hash_or_zero};

use refusals::Refusal;
use word::{word, word_near_end};

pub mod refusals; // refusals.rt: the refusals and their numbers
pub mod word; // word.rt: the little-endian words of a slice

// lookup3's three words a, b, c.
#[derive(Clone, Copy)]
struct Words {
    a: u32,
    b: u32,
    c: u32,
}

// What the three words begin with, before length and start value are added.
const JHASH_INITVAL: u32 = 0xdeadbeef;

// The 32 powers of two that a rotation multiplies by: entry k is 2^k.
const POWERS: [u64; 32] = [
    1, 2, 4, 8, 16, 32, 64, 128, 256, 512, 1024, 2048, 4096, 8192, 16384, 32768, 65536, 131072,
    262144, 524288, 1048576, 2097152, 4194304, 8388608, 16777216, 33554432, 67108864, 134217728,
    268435456, 536870912, 1073741824, 2147483648,
];

// The table's entry for k modulo 32.
fn power(k: u32) -> u64
    ensures { result ≡ 2 ^ (k % 32) }
{
    POWERS[(k % 32) as usize]
}

// A product split at 2^32, its two halves added.
fn halves_added(product: u64) -> u64
    ensures { result ≡ product % 2 ^ 32 + product / 2 ^ 32 }
{
    product % 4294967296 + product / 4294967296
}

// x rotated left by k bits: the product by a power of two, its halves added. The sum never carries past 32 bits, so the
// cast loses nothing. An amount of 32 or more rotates by its remainder modulo 32.
pub fn rotate_left(x: u32, k: u32) -> u32
    ensures { result ≡ rotl32 x (k % 32) }
{
    halves_added(x as u64 * power(k)) as u32
}

// x - y, modulo 2^32.
fn minus(x: u32, y: u32) -> u32
    ensures { result ≡ sub32 x y }
{
    x.wrapping_sub(y)
}

// One round of mixing. It returns the words renamed, so that the next round is again on (a, c, b): a is the old b, b is
// c + b, c is the mixed word. The rotation comes first and the sum last, and the compiler keeps that order: the next
// round waits for the rotated word and the difference, not for the sum.
fn mix_round(w: Words, k: u32) -> Words
    requires { k < 32 }
    ensures { result ≡ mix_round w k }
{
    let rotated = rotate_left(w.c, k);
    let c = minus(w.a, w.c) ^ rotated;
    Words {
        a: w.b,
        b: w.c.wrapping_add(w.b),
        c,
    }
}

// All six rounds.
fn jhash_mix(w: Words) -> Words
    ensures { result ≡ mix w }
{
    let first = mix_round(mix_round(mix_round(w, 4), 6), 8);
    mix_round(mix_round(mix_round(first, 16), 19), 4)
}

// The word that a finishing step changes.
fn final_word(w: Words, k: u32) -> u32
    requires { k < 32 }
    ensures { result ≡ final_word w.c w.b k }
{
    minus(w.c ^ w.b, rotate_left(w.b, k))
}

// One finishing step. It returns the words renamed, so that the next step is again on (c, b).
fn final_step(w: Words, k: u32) -> Words
    requires { k < 32 }
    ensures { result ≡ final_step w k }
{
    Words {
        a: w.b,
        b: final_word(w, k),
        c: w.a,
    }
}

// All seven finishing steps.
fn jhash_final(w: Words) -> u32
    ensures { result ≡ final w }
{
    let third = final_step(final_step(final_step(w, 14), 11), 25);
    let sixth = final_step(final_step(final_step(third, 16), 4), 14);
    final_word(sixth, 24)
}

// Word by word modulo 2^32.
fn plus(w: Words, x: u32, y: u32, z: u32) -> Words
    ensures { result ≡ plus w x y z }
{
    Words {
        a: w.a.wrapping_add(x),
        b: w.b.wrapping_add(y),
        c: w.c.wrapping_add(z),
    }
}

// The next 12 bytes, added as three words.
fn added_block(w: Words, s: &[u8]) -> Words
    requires { 12 ≤ length s.now }
    ensures { result ≡ added w s.now }
{
    plus(w, word(s, 0), word(s, 4), word(s, 8))
}

// The last bytes, fewer than 12, added as three words, by how many of the words they fill; the zero byte after them
// adds nothing.
fn added_tail(w: Words, s: &[u8]) -> Words
    requires { length s.now < 12 }
    ensures { result ≡ added w s.now }
{
    if 8 <= s.len() {
        return plus(w, word(s, 0), word(s, 4), word_near_end(s, 8));
    }
    if 4 <= s.len() {
        return plus(w, word(s, 0), word_near_end(s, 4), 0);
    }
    plus(w, word_near_end(s, 0), 0, 0)
}

// The hash of the name and its zero byte; all three words begin with x.
fn hash_from(name: &[u8], x: u32) -> u32
    ensures { result ≡ hash_rest (equal_words x) (name.now ++ 0 ∷ []) }
{
    let mut words = Words { a: x, b: x, c: x };
    // A subslice that is the whole name: place and length are read one by one, and the compiler then passes two numbers
    // in place of a pointer to both.
    let n = name.len();
    let mut t = &name[0..n];
    // No index is counted: each turn takes twelve bytes off the front.
    while 12 <= t.len() {
        words = jhash_mix(added_block(words, t));
        t = &t[12..];
    }
    jhash_final(added_tail(words, t))
}

// Has a name 4,294,967,295 bytes or more?
fn too_long(name: &[u8]) -> bool
    ensures { result ≡ nat_le 4294967295 (length name.now) }
{
    4294967295 <= name.len()
}

// The word that hashing a name and its zero byte begins with.
fn initial_word(name: &[u8], start: u32) -> u32
    requires { length name.now < 4294967295 }
    ensures { result ≡ initial_word (length name.now + 1) start }
{
    let count = name.len() as u32 + 1;
    JHASH_INITVAL.wrapping_add(count).wrapping_add(start)
}

// The hash of a name with a start value: hashlittle over the name and one zero byte. A name of 4,294,967,295 bytes or
// more is refused with 9.
pub fn jhash(name: &[u8], initval: u32) -> Result<u32, Refusal>
    ensures { outcome_of result ≡ hash_outcome name.now initval }
{
    if too_long(name) {
        return Err(Refusal::NameTooLong);
    }
    Ok(hash_from(name, initial_word(name, initval)))
}

// The hash that images use: start value 0. It does not call `jhash`: where both are used, `hash_from` then stays a
// function of its own, and both small ones around it go into their callers.
pub fn name_hash(name: &[u8]) -> Result<u32, Refusal>
    ensures { outcome_of result ≡ hash_outcome name.now 0 }
{
    if too_long(name) {
        return Err(Refusal::NameTooLong);
    }
    Ok(hash_from(name, initial_word(name, 0)))
}

// The hash of a name, 0 where it is too long to have one.
pub fn hash_or_zero(name: &[u8]) -> u32
    ensures { result ≡ hash_or_zero name.now }
{
    name_hash(name).unwrap_or(0)
}
