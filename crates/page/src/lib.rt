// A printed catalogue: a line of 45 bytes for every id below back size.
#![tactic(auto)]

ghost use Rattle.std.specs.Prelude.{◌≡◌, ◌+◌, ◌-◌, ◌<◌, min, length};
ghost use Rattle.std.proofs.lemmas.List.Edits.{sets};
ghost use Rattle.reader.specs.Naming.{name_given};
ghost use Rattle.page.specs.Page.{lines};
ghost use Rattle.jhash.specs.Outcome.{outcome_of};
ghost use Rattle.page.specs.Call.{page_length, printing, after_page, part_printing, after_part};
ghost use Rattle.page.specs.Steps.Contracts.{PrintLinesPre, FrontPrinted};

use jhash::refusals::Refusal;
use line::print_line;
use reader::Iter;
use reader::id_walk::size_hint;

mod line; // line.rt: one line

// How many bytes the page of an image has.
pub fn page_length(image: &[u8]) -> u64
    ensures { result ≡ page_length image.now }
{
    45 * (size_hint(image, Iter { next: 0 }) as u64)
}

// The lines of `count` ids from `first` on, one after the other.
fn print_lines(out: &mut [u8], image: &[u8], first: u32, count: u32)
    requires { PrintLinesPre out.old first count }
    ensures { out.new ≡ sets out.old 0 (lines (name_given image.now) first count) }
{
    for i in 0..count {
        print_line(&mut *out, 45 * (i as usize), image, first + i);
    }
}

// The same, to the front of `out`. Refused where `out` is shorter, and nothing is written.
fn print_front(out: &mut [u8], image: &[u8], first: u32, count: u32) -> Result<u64, Refusal>
    requires { first + count < 4294967296 }
    ensures { FrontPrinted (name_given image.now) first count out.old out.new (outcome_of result) }
{
    let length = 45 * (count as u64);
    if (out.len() as u64) < length {
        return Err(Refusal::PageTooLong);
    }
    print_lines(&mut *out, image, first, count);
    Ok(length)
}

// The page of an image, printed to the front of `out`. Refused where `out` is shorter, and nothing is written.
pub fn page(image: &[u8], out: &mut [u8]) -> Result<u64, Refusal>
    ensures answer { outcome_of result ≡ printing image.now (length out.old) }
    ensures leaves { out.new ≡ after_page image.now out.old }
{
    let size = size_hint(image, Iter { next: 0 });
    print_front(&mut *out, image, 0, size)
}

// How many of `count` ids from `first` on are below back size.
fn ids_below(size: u32, first: u32, count: u32) -> u32
    ensures { result ≡ min count (size - first) }
{
    count.min(size.saturating_sub(first))
}

// The part of the page with the lines of `count` ids from `first` on, of those below back size. Refused as the page is.
pub fn page_part(image: &[u8], first: u32, count: u32, out: &mut [u8]) -> Result<u64, Refusal>
    ensures answer { outcome_of result ≡ part_printing image.now first count (length out.old) }
    ensures leaves { out.new ≡ after_part image.now first count out.old }
{
    let size = size_hint(image, Iter { next: 0 });
    let lines = ids_below(size, first, count);
    print_front(&mut *out, image, first, lines)
}
