// Appending an image to a bundle. The file is the buffer's first bytes, their number given.
ghost use Rattle.std.specs.Prelude.{◌≡◌};
ghost use Rattle.jhash.specs.Outcome.{outcome_of, refusal_of};
ghost use Rattle.bundle.specs.Append.{unfit, append_refusal, appending, after_append};

use super::walking::count;
use image::HEAD_SIZE;
use image::head::SIZE_AT;
use image::store::store_bytes;
use jhash::refusals::Refusal;
use jhash::word::word;

// Is a new image under 2,072 bytes, or not as long as its size word says?
fn unfit(image: &[u8]) -> bool
    ensures { result ≡ unfit image.now }
{
    image.len() < HEAD_SIZE || word(image, SIZE_AT) as usize != image.len()
}

// Whether an append is accepted, or the refusal that is due. All of append's decision stands here.
fn check_append(buf: &[u8], file_len: usize, image: &[u8]) -> Result<(), Refusal>
    ensures { refusal_of result ≡ append_refusal buf.now file_len image.now }
{
    if buf.len() < file_len {
        return Err(Refusal::BrokenBundle);
    }
    if count(&buf[..file_len]).is_err() {
        return Err(Refusal::BrokenBundle);
    }
    if unfit(image) {
        return Err(Refusal::BrokenBundle);
    }
    if buf.len() - file_len < image.len() {
        return Err(Refusal::NoRoom);
    }
    Ok(())
}

// Writes the image's bytes right after the file's and gives the joined length, or is refused and changes nothing: 10
// where the file is longer than the buffer or its walk breaks off, or the image is unfit; then 3 where the buffer has
// no room.
pub fn append(buf: &mut [u8], file_len: usize, image: &[u8]) -> Result<usize, Refusal>
    ensures answer { outcome_of result ≡ appending buf.old file_len image.now }
    ensures leaves { buf.new ≡ after_append buf.old file_len image.now }
{
    check_append(&*buf, file_len, image)?;
    store_bytes(&mut *buf, file_len, image);
    Ok(file_len + image.len())
}
