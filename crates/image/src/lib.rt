// What an image is made of: its words, read and stored little-endian anywhere in a slice, byte strings compared, the
// entries in some bytes, probe sequences, packed names, and the writer's mode.
#![tactic(auto)]

ghost use Rattle.std.specs.Prelude.{◌≡◌, ◌<◌, length, slice_set};
ghost use Rattle.std.proofs.lemmas.List.Edits.{sets};
ghost use Rattle.image.specs.Bytes.{word, le32};
ghost use Rattle.image.specs.Steps.Contracts.{SizeRead};

use jhash::word::{word, word_near_end};
use store::store_word;

pub mod entries; // entries.rt: broken entries, whole ones, and a walk over them
pub mod equality; // equality.rt: same
pub mod head; // head.rt: where the words of the head stand
mod numbers; // numbers.rt: the number of a mode
pub mod packed; // packed.rt: packed names
pub mod probe; // probe.rt: the probe sequence of a search
pub mod rows; // rows.rt: the rows of the head
pub mod store; // store.rt: words and bytes stored inside a buffer
pub mod zero; // zero.rt: zero bytes in a name

// The head is 2,072 bytes.
pub const HEAD_SIZE: usize = 2072;

// The same in 64 bits, as the writer record has its numbers.
pub const HEAD_SIZE_64: u64 = HEAD_SIZE as u64;

// The word by which a reader tells the byte order.
pub const BYTEORDER_CHECK: u32 = 0x62445371;

// The writer's mode (`Flag` of cqdb-rs, NONE and ONEWAY): a one-way image has no back array.
#[derive(Clone, Copy, Debug, PartialEq, Eq)]
pub enum Mode {
    Twoway,
    Oneway,
}

// The little-endian word at `at`; bytes past the end count as 0.
pub fn word_or_zero(s: &[u8], at: usize) -> u32
    ensures { result ≡ word s.now at }
{
    if s.len() <= at {
        return 0;
    }
    if s.len() - at < 4 {
        return word_near_end(s, at);
    }
    word(s, at)
}

// The same as a size.
pub fn size_or_zero(s: &[u8], at: usize) -> usize
    ensures { SizeRead s.now at result }
{
    word_or_zero(s, at) as usize
}

// A byte stored at `at`; past the end nothing is stored.
fn store_byte_clipped(buf: &mut [u8], at: usize, b: u8)
    ensures { buf.new ≡ slice_set buf.old at b }
{
    if at < buf.len() {
        buf[at] = b;
    }
}

// The four bytes of v stored from `at` on, where the last may be past the end.
fn store_near_end(buf: &mut [u8], at: usize, v: u32)
    requires { at < length buf.old }
    ensures { buf.new ≡ sets buf.old at (le32 v) }
{
    store_byte_clipped(&mut *buf, at, (v % 256) as u8);
    store_byte_clipped(&mut *buf, at + 1, (v / 256 % 256) as u8);
    store_byte_clipped(&mut *buf, at + 2, (v / 65536 % 256) as u8);
    store_byte_clipped(&mut *buf, at + 3, (v / 16777216 % 256) as u8);
}

// The four bytes of v stored from `at` on, little-endian; past the end nothing is stored.
pub fn store_word_clipped(buf: &mut [u8], at: usize, v: u32)
    ensures { buf.new ≡ sets buf.old at (le32 v) }
{
    if buf.len() <= at {
        return;
    }
    if buf.len() - at < 4 {
        store_near_end(&mut *buf, at, v);
        return;
    }
    store_word(&mut *buf, at, v);
}
