// The search of the home check (02 (vi)). It continues past an equal name, so it finds each id of a name; the lookup's
// search, which ends there, is the reader's. One loop for both, with a closure, is no plainer: the lookup's counts the
// buckets, and this one does not.
ghost use Rattle.std.specs.Prelude.{◌≡◌};
ghost use Rattle.image.specs.Steps.Contracts.{TableIn};
ghost use Rattle.consistency.specs.Matches.{matches_in, matches_by_hash, matches_of, any_match};

use image::probe::{next, start};
use reader::lookup::probe_bucket;
use reader::{Image, Probe};

// Does the search for the name in the table of n buckets at `at` meet an entry with this name and id? It ends at an
// empty bucket, at a broken entry, and after n buckets.
fn has_match_in(image: &[u8], name: &[u8], h: u32, at: u32, n: u32, id: u32) -> bool
    requires { TableIn image.now at n }
    ensures { result ≡ any_match id (matches_in image.now name.now h at n) }
{
    let mut k = start(h, n as usize);
    for _ in 0..n {
        match probe_bucket(image, name, h, at as usize + 8 * k) {
            Probe::Pass => {}
            Probe::Ends => {
                return false;
            }
            Probe::Hit(hit) => {
                if hit.id == id {
                    return true;
                }
            }
        }
        k = next(k, n as usize);
    }
    false
}

// The same in the image, for a name whose hash is h.
fn has_match_hashed(image: Image, name: &[u8], h: u32, id: u32) -> bool
    ensures { result ≡ any_match id (matches_by_hash image.entry.bytes.now name.now h) }
{
    let table = image.table(h);
    if table.n == 0 {
        return false;
    }
    has_match_in(image.bytes, name, h, table.at, table.n, id)
}

// Does the search for the name meet an entry with this name and id?
pub(super) fn has_match(image: &[u8], name: &[u8], id: u32) -> bool
    ensures { result ≡ any_match id (matches_of image.now name.now) }
{
    let Some(image) = Image::new(image) else {
        return false;
    };
    match jhash::name_hash(name) {
        Ok(h) => has_match_hashed(image, name, h, id),
        Err(_) => false,
    }
}
