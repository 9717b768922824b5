// The states of a seed, and the names that they give.
ghost use Rattle.std.specs.Prelude.{◌≡◌, ◌<◌};
ghost use Rattle.load.specs.States.{next_state, hex_digit, state_name};

// The state after one step more.
pub(super) fn stepped(s: u32) -> u32
    ensures { result ≡ next_state s }
{
    s.wrapping_mul(1664525).wrapping_add(1013904223)
}

// An uppercase hexadecimal digit.
fn hex_digit(d: u32) -> u8
    requires { d < 16 }
    ensures { result ≡ hex_digit d }
{
    if d < 10 {
        (48 + d) as u8
    } else {
        (55 + d) as u8
    }
}

// The name of a state: P and its eight digits, the most significant first.
pub(super) fn state_name(s: u32) -> [u8; 9]
    ensures { result ≡ state_name s }
{
    [
        b'P',
        hex_digit(s / 268435456 % 16),
        hex_digit(s / 16777216 % 16),
        hex_digit(s / 1048576 % 16),
        hex_digit(s / 65536 % 16),
        hex_digit(s / 4096 % 16),
        hex_digit(s / 256 % 16),
        hex_digit(s / 16 % 16),
        hex_digit(s % 16),
    ]
}
