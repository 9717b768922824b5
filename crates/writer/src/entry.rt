// An entry's bytes, stored, and the entry appended.
ghost use Rattle.std.specs.Prelude.{◌≡◌, length};
ghost use Rattle.std.proofs.lemmas.List.Edits.{sets};
ghost use Rattle.image.specs.Image.{entry_bytes};
ghost use Rattle.writer.specs.State.{state_with};
ghost use Rattle.writer.specs.Put.{entry_of, appended};
ghost use Rattle.writer.specs.Steps.Storing.{StorePre, AppendPre};

use super::CQDBWriter;
use image::entries::raise;
use image::store::{store_bytes, store_word};

// An entry stored from `at` on: id, name length plus 1, the name, one zero byte. An internal function: the caller
// knows that the entry fits into the buffer.
pub fn store(buf: &mut [u8], at: usize, name: &[u8], id: u32)
    requires { StorePre at (length name.now) buf.old }
    ensures { buf.new ≡ sets buf.old at (entry_bytes (entry_of name.now id)) }
{
    store_word(&mut *buf, at, id);
    store_word(&mut *buf, at + 4, name.len() as u32 + 1);
    store_bytes(&mut *buf, at + 8, name);
    buf[at + 8 + name.len()] = 0;
}

impl CQDBWriter {
    // What an accepted put of a name with hash h does: it appends an entry (id, name length plus 1, the name, one zero
    // byte) and raises the count of its table.
    pub fn append(&mut self, counts: &mut [u32; 256], buf: &mut [u8], name: &[u8], id: u32, h: u32)
        requires { AppendPre (state_with self.old counts.old buf.old) (entry_of name.now id) h }
        ensures { state_with self.new counts.new buf.new
            ≡ appended (state_with self.old counts.old buf.old) (entry_of name.now id) }
    {
        raise(counts, h);
        store(buf, self.end as usize, name, id);
        self.count_put(name.len(), id);
    }
}
