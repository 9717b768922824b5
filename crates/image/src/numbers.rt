// The number that stands for a mode, in the flag word and in C.
ghost use Rattle.std.specs.Prelude.{◌≡◌};
ghost use Rattle.image.specs.Image.{flag_word};
ghost use Rattle.image.specs.Steps.Contracts.{mode_read};

use super::Mode;
use jhash::refusals::Refusal;

// The flag word of a mode.
impl From<Mode> for u32 {
    ghost from_gives = { λ m n. n ≡ flag_word m };

    fn from(mode: Mode) -> u32 {
        mode as u32
    }
}

// The mode that a number stands for: 0 two-way, 1 one-way, no other.
impl TryFrom<u32> for Mode {
    type Error = Refusal;

    ghost try_from_gives = { λ n r. r ≡ mode_read n };

    fn try_from(number: u32) -> Result<Mode, Refusal> {
        match number {
            0 => Ok(Mode::Twoway),
            1 => Ok(Mode::Oneway),
            _ => Err(Refusal::Unfit),
        }
    }
}
