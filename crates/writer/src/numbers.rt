// The numbers by which C names a mode and the choice of repeats: 0 two-way and 1 one-way; 0 off and 1 on.
ghost use Rattle.std.specs.Prelude.{◌≡◌};
ghost use Rattle.writer.specs.Numbers.{mode_of, repeats_of, repeats_word, repeats_read};

use super::Repeats;
use image::Mode;
use jhash::refusals::Refusal;

// The mode that a number stands for, where none is refused: each number but 0 counts as one-way.
pub fn mode_of(mode: u32) -> Mode
    ensures { result ≡ mode_of mode }
{
    if mode == 0 {
        Mode::Twoway
    } else {
        Mode::Oneway
    }
}

// The choice of repeats that a number stands for, where none is refused: each number but 0 counts as on.
pub fn repeats_of(repeats: u32) -> Repeats
    ensures { result ≡ repeats_of repeats }
{
    if repeats == 0 {
        Repeats::Off
    } else {
        Repeats::On
    }
}

// The number of a choice of repeats.
impl From<Repeats> for u32 {
    ghost from_gives = { λ r n. n ≡ repeats_word r };

    fn from(repeats: Repeats) -> u32 {
        repeats as u32
    }
}

// The choice of repeats that a number stands for; no other number than 0 and 1 does.
impl TryFrom<u32> for Repeats {
    type Error = Refusal;

    ghost try_from_gives = { λ n r. r ≡ repeats_read n };

    fn try_from(number: u32) -> Result<Repeats, Refusal> {
        match number {
            0 => Ok(Repeats::Off),
            1 => Ok(Repeats::On),
            _ => Err(Refusal::Unfit),
        }
    }
}
