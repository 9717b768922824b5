// The printed catalogue for C. Each function is a thin call of the proved function that bears the work.
ghost use Rattle.std.specs.Prelude.{◌≡◌, length};
ghost use Rattle.jhash.specs.Outcome.{outcome_of};
ghost use Rattle.page.specs.Call.{page_length, after_page, after_part};
ghost use Rattle.reader_c.specs.PageAnswer.{page_answer_of, page_answer, part_answer};

use jhash::refusals::Refusal;

// The refusal's number, 0 when accepted; the length of what is printed, 0 when refused.
#[repr(C)]
#[derive(Clone, Copy)]
pub struct PageAnswer {
    pub refusal: u32,
    pub length: u64,
}

// How many bytes the page of an image has.
#[unsafe(no_mangle)]
pub extern "C" fn cqdb_page_length(image: &[u8]) -> u64
    ensures { result ≡ page_length image.now }
{
    page::page_length(image)
}

// The outcome as a struct.
fn answer(printed: Result<u64, Refusal>) -> PageAnswer
    ensures { result ≡ page_answer_of (outcome_of printed) }
{
    match printed {
        Ok(n) => PageAnswer {
            refusal: 0,
            length: n,
        },
        Err(refusal) => PageAnswer {
            refusal: u32::from(refusal),
            length: 0,
        },
    }
}

// The page of an image, printed to the front of `out`; or refusal 12, and nothing is written.
#[unsafe(no_mangle)]
pub extern "C" fn cqdb_page(image: &[u8], out: &mut [u8]) -> PageAnswer
    ensures answer { result ≡ page_answer image.now (length out.old) }
    ensures leaves { out.new ≡ after_page image.now out.old }
{
    let printed = page::page(image, &mut *out);
    answer(printed)
}

// The part of the page with the lines of `count` ids from `first` on, of those below back size; or refusal 12, as for
// the page.
#[unsafe(no_mangle)]
pub extern "C" fn cqdb_page_part(image: &[u8], first: u32, count: u32, out: &mut [u8]) -> PageAnswer
    ensures answer { result ≡ part_answer image.now first count (length out.old) }
    ensures leaves { out.new ≡ after_part image.now first count out.old }
{
    let printed = page::page_part(image, first, count, &mut *out);
    answer(printed)
}
