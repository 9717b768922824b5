// What is known of a list before any byte is written: whether a name has a zero byte, the hashes of all names, and how
// many fall into each table.
ghost use Rattle.std.specs.Prelude.{◌≡◌};
ghost use Rattle.jhash.specs.NameHash.{hash_or_zero};
ghost use Rattle.image.specs.Zero.{has_zero};
ghost use Rattle.build.specs.Steps.Stores.{HashListPre, HashListPost};

use image::packed::PackedNames;

// Is one of the bytes zero? The loop reads each of them and ends at none, so the compiler looks at sixteen at once;
// `contains` ends at the first.
pub(crate) fn any_zero(bytes: &[u8]) -> bool
    ensures { result ≡ has_zero bytes.now }
{
    let mut any = false;
    for b in bytes {
        any = any | (*b == 0);
    }
    any
}

// The hash of a name, 0 where it is too long to have one. By `jhash`, since `name_hash` has other callers in a build:
// the one that is called here alone answers by a number in a register, 4 % of a list in one call at 4,096 names.
fn hash_name(name: &[u8]) -> u32
    ensures { result ≡ hash_or_zero name.now }
{
    jhash::jhash(name, 0).unwrap_or(0)
}

// The hashes of all names, in the list's order, and the counts of the tables that they fall into.
pub(crate) fn hash_list(names: PackedNames, hashes: &mut [u32], counts: &mut [u32; 256])
    requires { HashListPre names.bytes.now names.ends.now hashes.old counts.old }
    ensures { HashListPost names.entry.bytes.now names.entry.ends.now hashes.old hashes.new
        counts.new }
{
    for i in 0..names.ends.len() {
        let h = hash_name(names.name(i));
        hashes[i] = h;
        image::entries::raise(&mut *counts, h);
    }
}
