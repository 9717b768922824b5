// What a round looks up: names, their hashes, and the image.
ghost use Rattle.std.specs.Prelude.{◌≡◌, ◌<◌, ◌≤◌, length};
ghost use Rattle.image.specs.Bytes.{same};
ghost use Rattle.batch.specs.RoundNames.{most_names, names, nth};
ghost use Rattle.batch.specs.Steps.HashedNames.{Hashes, HashedNames};

use crate::MOST_NAMES;
use image::equality::same;
use image::packed::PackedNames;
use jhash::hash_or_zero;

// At most 512 names, with their hashes, 0 for a name too long to have one; and the image that they are looked up in.
#[derive(Clone, Copy)]
pub(crate) struct Round<'a> {
    pub(crate) image: &'a [u8],
    pub(crate) names: PackedNames<'a>,
    pub(crate) hashes: &'a [u32],
    pub(crate) ghost hashed: { HashedNames names.bytes.now names.ends.now hashes.now },
}

// Stores the hashes of all names.
pub(crate) fn hash_names(packed: PackedNames, hashes: &mut [u32; MOST_NAMES])
    requires { length packed.ends.now ≤ most_names }
    ensures { Hashes (names packed.entry.bytes.now packed.entry.ends.now) hashes.new }
{
    for i in 0..packed.ends.len() {
        hashes[i] = hash_or_zero(packed.name(i));
    }
}

impl<'a> Round<'a> {
    // The i-th name, counted from 0.
    pub(crate) fn name(&self, i: usize) -> &'a [u8]
        requires { i < length self.now.names.ends.now }
        ensures { result.now ≡ nth (names self.now.names.bytes.now self.now.names.ends.now) i }
    {
        self.names.name(i)
    }

    // Are two of the names equal? Their bytes are compared only where their hashes are equal.
    pub(crate) fn equal_names(&self, j: usize, i: usize) -> bool
        requires first { j < length self.now.names.ends.now }
        requires second { i < length self.now.names.ends.now }
        ensures { result ≡ same (nth (names self.now.names.bytes.now self.now.names.ends.now) j)
            (nth (names self.now.names.bytes.now self.now.names.ends.now) i) }
    {
        self.hashes[j] == self.hashes[i] && same(self.name(j), self.name(i))
    }
}
