// Where entries and tables stand in an image, for C.
ghost use Rattle.std.specs.Prelude.{◌≡◌};
ghost use Rattle.reader_c.specs.LayoutAnswers.{no_entry, entry_answer, table_answer};

use image::entries::broken;
use jhash::word::word;
use reader::Image;

// 1, the entry's id and the place of its name, its length and its first byte's offset; or zeros.
#[repr(C)]
#[derive(Clone, Copy)]
pub struct EntryAnswer {
    pub found: u32,
    pub id: u32,
    pub len: u32,
    pub start: u64,
}

// The number of a table's buckets, and the first one's offset; or zeros.
#[repr(C)]
#[derive(Clone, Copy)]
pub struct TableAnswer {
    pub buckets: u32,
    pub start: u32,
}

// No entry.
fn no_entry() -> EntryAnswer
    ensures { result ≡ no_entry }
{
    EntryAnswer {
        found: 0,
        id: 0,
        len: 0,
        start: 0,
    }
}

// The entry at an offset: its id and the place of its name; or nothing, at the offset 0 and where the entry is broken.
#[unsafe(no_mangle)]
pub extern "C" fn cqdb_entry(image: &[u8], offset: u32) -> EntryAnswer
    ensures { result ≡ entry_answer image.now offset }
{
    if offset == 0 {
        return no_entry();
    }
    if broken(image, offset) {
        return no_entry();
    }
    let at = offset as usize;
    EntryAnswer {
        found: 1,
        id: word(image, at),
        len: word(image, at + 4) - 1,
        start: offset as u64 + 8,
    }
}

// The table that a hash is searched in; nothing where no bucket is read.
#[unsafe(no_mangle)]
pub extern "C" fn cqdb_table(image: &[u8], hash: u32) -> TableAnswer
    ensures { result ≡ table_answer image.now hash }
{
    let Some(image) = Image::new(image) else {
        return TableAnswer {
            buckets: 0,
            start: 0,
        };
    };
    let table = image.table(hash);
    if table.n == 0 {
        return TableAnswer {
            buckets: 0,
            start: 0,
        };
    }
    TableAnswer {
        buckets: table.n,
        start: table.at,
    }
}
