// What a list needs: the bytes of a buffer in which no put is refused for room, and the words of scratch memory for the
// index of its names.
ghost use Rattle.std.specs.Prelude.{◌≡◌, ◌+◌, ◌<◌, length};
ghost use Rattle.build.specs.Needs.{ids_back, bytes_needed, needed};
ghost use Rattle.build.specs.Steps.Capacity.{BackOf};

use image::{HEAD_SIZE_64, Mode};

// The bytes for each name beside the name itself: 9 in its entry and 16 in its table.
const BYTES_EACH: u64 = 25;

// The words of scratch memory for each name; `words_each` is the same number.
const WORDS_EACH: u64 = 5;

// How many bytes, and how many words of scratch memory.
#[derive(Clone, Copy)]
pub struct Needs {
    pub bytes: u64,
    pub words: u64,
}

// The largest of these ids. A loop without a branch.
fn largest(ids: &[u32]) -> u32
    requires { 0 < length ids.now }
    ensures { result + 1 ≡ ids_back ids.now }
{
    let mut top: u32 = 0;
    for id in ids {
        top = top.max(*id);
    }
    top
}

// The largest id plus 1, 0 without any.
pub(crate) fn back_of(ids: &[u32]) -> u64
    ensures { BackOf ids.now result }
{
    if ids.is_empty() {
        return 0;
    }
    largest(ids) as u64 + 1
}

// The bytes of the image of all names, which have `size` bytes together, 2^64 - 1 where it is more.
fn bytes_for(mode: Mode, size: u64, ids: &[u32]) -> u64
    ensures { result ≡ bytes_needed mode size ids.now }
{
    let back = serialize::size::back_in(mode, back_of(ids));
    let entries = BYTES_EACH.saturating_mul(ids.len() as u64);
    let front = (HEAD_SIZE_64 + 4 * back).saturating_add(entries);
    front.saturating_add(size)
}

// What a list of names, which have `size` bytes together, with these ids needs.
pub fn for_list(mode: Mode, size: u64, ids: &[u32]) -> Needs
    ensures { result ≡ needed mode size ids.now }
{
    Needs {
        bytes: bytes_for(mode, size, ids),
        words: WORDS_EACH.saturating_mul(ids.len() as u64),
    }
}
