// The finished size (01's term), and where the back array begins.
ghost use Rattle.std.specs.Prelude.{◌≡◌, ◌^◌, ◌<◌};
ghost use Rattle.image.specs.Image.{back_in};
ghost use Rattle.serialize.specs.Record.{finished_of};
ghost use Rattle.serialize.specs.Steps.Written.{back_offset_of};

use image::Mode;

// The back size that counts in a size: none in one-way mode.
pub fn back_in(mode: Mode, back: u64) -> u64
    ensures { result ≡ back_in mode back }
{
    match mode {
        Mode::Twoway => back,
        Mode::Oneway => 0,
    }
}

// The finished size.
pub fn finished_size(mode: Mode, end: u64, entries: u32, back: u32) -> u64
    requires { end < 2 ^ 63 }
    ensures { result ≡ finished_of mode end entries back }
{
    end + 16 * (entries as u64) + 4 * back_in(mode, back as u64)
}

// Where the back array begins, 0 where there is none.
pub fn back_offset(mode: Mode, end: u64, entries: u32, back: u32) -> u64
    requires { end < 2 ^ 63 }
    ensures { result ≡ back_offset_of mode end entries back }
{
    if back_in(mode, back as u64) == 0 {
        return 0;
    }
    end + 16 * (entries as u64)
}
