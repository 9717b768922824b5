// The average search length for C. Each function calls the proved function of `search_length`.
ghost use Rattle.std.specs.Prelude.{◌≡◌};
ghost use Rattle.search_length.specs.Average.{Lengths};
ghost use Rattle.lists_c.specs.AverageAnswer.{average_answer};

use jhash::refusals::refusal_number;

// The refusal's number, 0 when accepted; the number of entries, quotient and remainder, 0 when refused. The C interface
// asks for a struct.
#[repr(C)]
#[derive(Clone, Copy)]
pub struct AverageAnswer {
    pub refusal: u32,
    pub entries: u32,
    pub quotient: u64,
    pub remainder: u64,
}

// The average search length of an image; or refusal 17 or 18.
#[unsafe(no_mangle)]
pub extern "C" fn cqdb_average(image: &[u8]) -> AverageAnswer
    ensures { result ≡ average_answer image.now }
{
    match search_length::average(image) {
        Ok(m) => AverageAnswer {
            refusal: 0,
            entries: m.entries,
            quotient: m.quotient,
            remainder: m.remainder,
        },
        Err(refusal) => AverageAnswer {
            refusal: u32::from(refusal),
            entries: 0,
            quotient: 0,
            remainder: 0,
        },
    }
}

// Stores how many entries are found after 1, 2, .. 15 and 16 or more buckets, and returns 0. Or returns the refusal's
// number; the list stays as it was.
#[unsafe(no_mangle)]
pub extern "C" fn cqdb_lengths(image: &[u8], counts: &mut [u32; 16]) -> u32
    ensures { Lengths image.now counts.old counts.new result }
{
    refusal_number(search_length::lengths(image, counts))
}
