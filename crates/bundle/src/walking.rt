// The walk over a bundle's images from the front, by their size words; letters are not looked at.
ghost use Rattle.std.specs.Prelude.{◌≡◌, ◌≤◌, length};
ghost use Rattle.jhash.specs.Outcome.{outcome_of};
ghost use Rattle.reader.specs.Slices.{slice};
ghost use Rattle.bundle.specs.FileWalk.{place_of_image, counting};
ghost use Rattle.bundle.specs.Opening.{returned_part, opening_at};
ghost use Rattle.bundle.specs.Cases.{placed_of, opened_at_of};
ghost use Rattle.bundle.specs.Steps.Contracts.{image_size};

use super::{ImagePlace, OpenedImage};
use image::HEAD_SIZE;
use jhash::refusals::Refusal;
use jhash::word::word;

// The size of the image that begins at `at`; 10 where the walk breaks off there, 11 where the file ends there.
fn image_size_at(file: &[u8], at: usize) -> Result<usize, Refusal>
    requires { at ≤ length file.now }
    ensures { outcome_of result ≡ image_size file.now at }
{
    let left = file.len() - at;
    if left == 0 {
        return Err(Refusal::NoSuchImage);
    }
    if left < 8 {
        return Err(Refusal::BrokenBundle);
    }
    let size = word(file, at + 4) as usize;
    if size < HEAD_SIZE {
        return Err(Refusal::BrokenBundle);
    }
    if left < size {
        return Err(Refusal::BrokenBundle);
    }
    Ok(size)
}

// Where the image at a position stands; 10 where the walk breaks off, 11 where the file ends at or before the position.
pub fn place(file: &[u8], position: usize) -> Result<ImagePlace, Refusal>
    ensures { placed_of result ≡ place_of_image file.now position }
{
    let mut start = 0;
    for _ in 0..position {
        start += image_size_at(file, start)?;
    }
    let size = image_size_at(file, start)?;
    Ok(ImagePlace { start, size })
}

// The part of the lent file that is the image at a position, exactly the size word's bytes; empty where the walk is
// refused.
pub fn part<'a>(file: &'a [u8], position: usize) -> &'a [u8]
    ensures { slice result ≡ returned_part (slice file.entry) position }
{
    match place(file, position) {
        Ok(p) => &file[p.start..p.start + p.size],
        Err(_) => &file[0..0],
    }
}

// The number of entries of the image at a position, and where it stands; or why it is refused: 10 or 11 by the
// walk, then 5, 6, 7 or 8 by the checks of opening, on the image's own bytes alone.
pub fn open(file: &[u8], position: usize) -> Result<OpenedImage, Refusal>
    ensures { opened_at_of result ≡ opening_at file.now position }
{
    let ImagePlace { start, size } = place(file, position)?;
    let num = reader::open(&file[start..start + size])?;
    Ok(OpenedImage { num, start, size })
}

// How many images the file holds; 10 where the walk breaks off.
pub fn count(file: &[u8]) -> Result<usize, Refusal>
    ensures { outcome_of result ≡ counting file.now }
{
    let mut at = 0;
    let mut images = 0;
    // The step varies, and how many images there are is what is sought, so no range stands for the turns.
    while at < file.len() {
        at += image_size_at(file, at)?;
        images += 1;
    }
    Ok(images)
}
