// Looking up a name (reference `to_id`): the probe of a bucket, the search along the buckets, and the call.
ghost use Rattle.std.specs.Prelude.{◌≡◌, IfSome, ℕ, ◌+◌, ◌/◌, ◌<◌, ◌≤◌, List, length};
ghost use Rattle.image.specs.Steps.Contracts.{BucketIs, TableIn};
ghost use Rattle.reader.specs.Lookup.{nothing, probe_entry, probe_bucket, search_table, lookup_hash, lookup};
ghost use Rattle.reader.specs.Cases.{probe_of, lookup_of};
ghost use Rattle.reader.specs.Steps.Resume.{search_rest, bucket_after, lookup_from};
ghost use Rattle.reader.specs.Steps.Search.{RestPre, EarlyMissPre, BucketAfterPre, FirstZero, TableFound};

use super::{Hit, Image, Probe, Table, ToId};
use image::HEAD_SIZE;
use image::entries::broken;
use image::equality::same;
use image::head::{BUCKET_NUMBERS_AT, ROW_SIZE, TABLE_OFFSETS_AT};
use image::probe::{next, start};
use jhash::word::word;

// What a search for a name does at the entry at `at`.
pub fn probe_entry(image: &[u8], name: &[u8], at: u32) -> Probe
    ensures { probe_of result ≡ probe_entry image.now name.now at }
{
    if broken(image, at) {
        return Probe::Ends;
    }
    let entry = at as usize;
    let start = entry + 8;
    let end = start + (word(image, entry + 4) as usize - 1);
    if same(&image[start..end], name) {
        return Probe::Hit(Hit {
            id: word(image, entry),
            offset: at,
        });
    }
    Probe::Pass
}

// What a search for a name with the hash h does at the bucket at `at`.
pub fn probe_bucket(image: &[u8], name: &[u8], h: u32, at: usize) -> Probe
    requires { at + 8 ≤ length image.now }
    ensures { probe_of result ≡ probe_bucket image.now name.now h at }
{
    let entry = word(image, at + 4);
    if entry == 0 {
        return Probe::Ends;
    }
    if word(image, at) != h {
        return Probe::Pass;
    }
    probe_entry(image, name, entry)
}

// Which of three numbers is the first that is 0, counted from 1; no answer promises nothing. One branch, on the
// smallest, decides whether any is 0.
fn first_zero(x: u32, y: u32, z: u32) -> Option<u32>
    ensures { IfSome result (FirstZero x y z) }
{
    if x.min(y.min(z)) != 0 {
        return None;
    }
    if x == 0 {
        return Some(1);
    }
    Some(if y == 0 { 2 } else { 3 })
}

// Of the first three buckets of a search, from bucket k on, the number of the first empty one, if neither of the first
// two has the hash h: there the search ends with nothing, whatever the name. Otherwise the search is undecided.
// Half of a table's buckets are empty, so a branch on each is often mispredicted; here one branch, on the smallest of
// three offsets, decides.
fn early_miss(image: &[u8], h: u32, at: u32, n: usize, k: usize) -> Option<u32>
    requires { EarlyMissPre image.now h at n k }
    ensures { IfSome result (λ read. (name : List ℕ) → search_table image.now name h at n ≡ nothing read) }
{
    let first = at as usize + 8 * k;
    if word(image, first) == h {
        return None;
    }
    let k1 = next(k, n);
    let second = at as usize + 8 * k1;
    if word(image, second) == h {
        return None;
    }
    let third = at as usize + 8 * next(k1, n);
    first_zero(
        word(image, first + 4),
        word(image, second + 4),
        word(image, third + 4),
    )
}

// Nothing is found; the search has read this many buckets.
fn nothing(buckets: u32) -> ToId
    ensures { lookup_of result ≡ nothing buckets }
{
    ToId { hit: None, buckets }
}

// The search for a name in the table of n buckets at `at`, where m buckets are left: from bucket `first` on, and from
// the last to bucket 0.
fn search_rest(image: &[u8], name: &[u8], h: u32, at: u32, n: u32, first: usize, m: u32) -> ToId
    requires { RestPre image.now at n first m }
    ensures { lookup_of result ≡ search_rest image.now name.now h at n first m }
{
    let mut k = first;
    for i in 0..m {
        let read = n - m + i + 1;
        match probe_bucket(image, name, h, at as usize + 8 * k) {
            Probe::Pass => {}
            Probe::Ends => {
                return nothing(read);
            }
            Probe::Hit(hit) => {
                return ToId {
                    hit: Some(hit),
                    buckets: read,
                };
            }
        }
        k = next(k, n as usize);
    }
    nothing(n)
}

// The search for a name in the table of n buckets at `at`: from bucket (hash / 256) modulo n on, from the last to
// bucket 0, and at most n buckets.
fn search(image: &[u8], name: &[u8], h: u32, at: u32, n: u32) -> ToId
    requires { TableIn image.now at n }
    ensures { lookup_of result ≡ search_table image.now name.now h at n }
{
    let k = start(h, n as usize);
    match early_miss(image, h, at, n as usize, k) {
        Some(read) => nothing(read),
        None => search_rest(image, name, h, at, n, k, n),
    }
}

impl<'a> Image<'a> {
    // The table that a hash is searched in: its offset and bucket number. The number is 0 where no bucket is read:
    // offset 0, bucket number 0 or an end past the image. An Option is no plainer: 0 is then also the number of buckets
    // that each caller answers or compares with.
    pub fn table(self, h: u32) -> Table
        ensures { TableFound self.entry.bytes.now h result.at result.n }
    {
        let t = (h % 256) as usize;
        let at = word(self.bytes, TABLE_OFFSETS_AT + ROW_SIZE * t);
        let n = word(self.bytes, BUCKET_NUMBERS_AT + ROW_SIZE * t);
        if at == 0 {
            return Table { at: 0, n: 0 };
        }
        if self.bytes.len() < at as usize + 8 * (n as usize) {
            return Table { at: 0, n: 0 };
        }
        Table { at, n }
    }

    // The lookup of a name whose hash is h.
    fn to_id_hashed(self, name: &[u8], h: u32) -> ToId
        ensures { lookup_of result ≡ lookup_hash self.entry.bytes.now name.now h }
    {
        let table = self.table(h);
        if table.n == 0 {
            return nothing(0);
        }
        search(self.bytes, name, h, table.at, table.n)
    }
}

// The id of a name and the offset of its entry, or nothing, with the number of buckets that the search reads.
pub fn to_id(image: &[u8], name: &[u8]) -> ToId
    ensures { lookup_of result ≡ lookup image.now name.now }
{
    // Subslices that are the whole image and the whole name: place and length are read one by one, and the compiler
    // then passes four numbers in place of two pointers to pairs. `Image::new` makes more code of the test.
    let all = image.len();
    let bytes = &image[0..all];
    let n = name.len();
    let wanted = &name[0..n];
    if all < HEAD_SIZE {
        return nothing(0);
    }
    match jhash::name_hash(wanted) {
        Ok(h) => Image { bytes }.to_id_hashed(wanted, h),
        Err(_) => nothing(0),
    }
}

// The bucket that a search in a table of n buckets reads after c others.
pub fn bucket_after(h: u32, c: u32, n: u32) -> u32
    requires { BucketAfterPre h c n }
    ensures { BucketIs (bucket_after h n c) n result }
{
    (h / 256 + c) % n
}

// The rest of a lookup, for a caller that has hashed the name and read the first c buckets of its search: h is the
// hash. The number of buckets in the answer counts those too. As in `to_id`, the test is not `Image::new`'s.
pub fn search_from(image: &[u8], name: &[u8], h: u32, c: u32) -> ToId
    requires { h / 256 + c < 4294967296 }
    ensures { lookup_of result ≡ lookup_from image.now name.now h c }
{
    if image.len() < HEAD_SIZE {
        return nothing(0);
    }
    if 4294967295 <= name.len() {
        return nothing(0);
    }
    let table = Image { bytes: image }.table(h);
    let n = table.n;
    if n <= c {
        return nothing(n);
    }
    let k = bucket_after(h, c, n) as usize;
    search_rest(image, name, h, table.at, n, k, n - c)
}
