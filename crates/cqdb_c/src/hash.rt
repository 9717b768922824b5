// The name hash for C.
ghost use Rattle.std.specs.Prelude.{◌≡◌};
ghost use Rattle.cqdb_c.specs.Hash.{hash_answer};

// The refusal's number, 0 when accepted; the hash, 0 when refused. The C interface: a struct of words in place of a
// Result.
#[repr(C)]
#[derive(Clone, Copy)]
pub struct HashAnswer {
    pub refusal: u32,
    pub hash: u32,
}

// The hash of a name with a start value, or refusal 9.
#[unsafe(no_mangle)]
pub extern "C" fn cqdb_hash(name: &[u8], start: u32) -> HashAnswer
    ensures { result ≡ hash_answer name.now start }
{
    match jhash::jhash(name, start) {
        Ok(hash) => HashAnswer { refusal: 0, hash },
        Err(refusal) => HashAnswer {
            refusal: u32::from(refusal),
            hash: 0,
        },
    }
}
