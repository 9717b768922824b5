// Opening an image, for C.
ghost use Rattle.std.specs.Prelude.{◌≡◌};
ghost use Rattle.cqdb_c.specs.ReadAnswers.{open_answer};

// The refusal's number, 0 when accepted; the number of entries, 0 when refused. The C interface: a struct of words in
// place of a Result.
#[repr(C)]
#[derive(Clone, Copy)]
pub struct OpenAnswer {
    pub refusal: u32,
    pub num: u32,
}

// The number of entries of an image (`num` of cqdb-rs), or refusal 1, 5, 6, 7 or 8.
#[unsafe(no_mangle)]
pub extern "C" fn cqdb_open(image: &[u8]) -> OpenAnswer
    ensures { result ≡ open_answer image.now }
{
    match reader::open(image) {
        Ok(num) => OpenAnswer { refusal: 0, num },
        Err(refusal) => OpenAnswer {
            refusal: u32::from(refusal),
            num: 0,
        },
    }
}
