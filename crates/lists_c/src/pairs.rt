// One to one for C: a thin call of the proved function that bears the work.
ghost use Rattle.std.specs.Prelude.{◌≡◌};
ghost use Rattle.one_to_one.specs.OneToOne.{one_to_one};
ghost use Rattle.lists_c.specs.OneToOneAnswer.{one_to_one_answer};

use one_to_one::Failure;

// The refusal's number, 0 when accepted; 1 for yes; otherwise the kind of the first failure and its entry's offset.
// Fields that do not apply are 0. The C interface asks for a struct of numbers.
#[repr(C)]
#[derive(Clone, Copy)]
pub struct OneToOneAnswer {
    pub refusal: u32,
    pub ok: u32,
    pub kind: u32,
    pub offset: u32,
}

// Is an image one to one? Refused with 17 if it is not canonical.
#[unsafe(no_mangle)]
pub extern "C" fn cqdb_one_to_one(image: &[u8]) -> OneToOneAnswer
    ensures { result ≡ one_to_one_answer (one_to_one image.now) }
{
    match one_to_one::one_to_one(image) {
        Ok(None) => OneToOneAnswer {
            refusal: 0,
            ok: 1,
            kind: 0,
            offset: 0,
        },
        Ok(Some(Failure::OtherId { offset })) => OneToOneAnswer {
            refusal: 0,
            ok: 0,
            kind: 1,
            offset,
        },
        Ok(Some(Failure::OtherName { offset })) => OneToOneAnswer {
            refusal: 0,
            ok: 0,
            kind: 2,
            offset,
        },
        Err(refusal) => OneToOneAnswer {
            refusal: u32::from(refusal),
            ok: 0,
            kind: 0,
            offset: 0,
        },
    }
}
