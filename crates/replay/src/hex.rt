// Numbers and bytes written as hexadecimal digits, in lower case.
ghost use Rattle.std.specs.Prelude.{◌<◌, ◌≤◌, length, IfSome};

// The value of a digit.
fn digit(b: u8) -> Option<u8>
    ensures { IfSome result (λ d. d < 16) }
{
    match b {
        b'0'..=b'9' => Some(b - b'0'),
        b'a'..=b'f' => Some(b - b'a' + 10),
        _ => None,
    }
}

// Eight digits as a number.
pub(super) fn number(text: &[u8]) -> Option<u32> {
    if text.len() != 8 {
        return None;
    }
    let mut v: u32 = 0;
    for b in text {
        v = v % 0x1000_0000 * 16 + digit(*b)? as u32;
    }
    Some(v)
}

// Two digits for each byte, written from the start of `out` on, and how many bytes that were. A text that breaks off
// its form leaves the bytes before that place written.
pub(super) fn decode(text: &[u8], out: &mut [u8]) -> Option<usize>
    ensures { IfSome result (λ n. n ≤ length out.old) }
{
    let n = text.len() / 2;
    if text.len() % 2 != 0 || out.len() < n {
        return None;
    }
    for (byte, pair) in out.iter_mut().zip(text.chunks_exact(2)) {
        *byte = digit(pair[0])? * 16 + digit(pair[1])?;
    }
    Some(n)
}
