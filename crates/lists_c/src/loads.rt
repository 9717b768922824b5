// The load of a seed for C: a thin call of the proved function that bears the work.
ghost use Rattle.std.specs.Prelude.{◌≡◌};
ghost use Rattle.load.specs.Load.{after_load};
ghost use Rattle.lists_c.specs.LoadAnswer.{load_answer};

// The refusal's number, 0 when accepted; the number of accepted entries, 0 when refused. The C interface asks for a
// struct.
#[repr(C)]
#[derive(Clone, Copy)]
pub struct LoadAnswer {
    pub refusal: u32,
    pub accepted: u32,
}

// The load of a seed, closed in the front of `buf`; or refusal 1, and nothing is written.
#[unsafe(no_mangle)]
pub extern "C" fn cqdb_load(seed: u32, buf: &mut [u8]) -> LoadAnswer
    ensures answer { result ≡ load_answer seed buf.old }
    ensures leaves { buf.new ≡ after_load seed buf.old }
{
    match load::load(seed, buf) {
        Ok(accepted) => LoadAnswer {
            refusal: 0,
            accepted,
        },
        Err(refusal) => LoadAnswer {
            refusal: u32::from(refusal),
            accepted: 0,
        },
    }
}
