// Words and byte strings stored inside a buffer. These are internal functions: the caller knows that they fit, so no
// store is tested twice.
ghost use Rattle.std.specs.Prelude.{◌≡◌, ◌+◌, ◌≤◌, length};
ghost use Rattle.std.proofs.lemmas.List.Edits.{sets};
ghost use Rattle.image.specs.Bytes.{le32};

// The word v stored at `at`, little-endian. The compiler makes one store of it.
pub fn store_word(buf: &mut [u8], at: usize, v: u32)
    requires { at + 4 ≤ length buf.old }
    ensures { buf.new ≡ sets buf.old at (le32 v) }
{
    buf[at] = (v % 256) as u8;
    buf[at + 1] = (v / 256 % 256) as u8;
    buf[at + 2] = (v / 65536 % 256) as u8;
    buf[at + 3] = (v / 16777216 % 256) as u8;
}

// The bytes of src stored from `at` on. By copy_from_slice the archive would call memmove, which nothing proves.
pub fn store_bytes(buf: &mut [u8], at: usize, src: &[u8])
    requires { at + length src.now ≤ length buf.old }
    ensures { buf.new ≡ sets buf.old at src.now }
{
    for (j, b) in src.iter().enumerate() {
        buf[at + j] = *b;
    }
}
