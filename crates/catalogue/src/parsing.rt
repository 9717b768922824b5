// A line taken apart.
ghost use Rattle.std.specs.Prelude.{◌≡◌, ◌<◌, ◌≤◌, ℕ, true, false, length, slice_index, MatchOption};
ghost use Rattle.catalogue.specs.Lines.{is_digit, parse_line, other};
ghost use Rattle.catalogue.specs.Steps.Contracts.{Parsed, TooLarge, IsDecimal};

// What a line asks to put: an id and a name.
#[derive(Clone, Copy)]
pub struct Entry<'a> {
    pub id: u32,
    pub name: &'a [u8],
}

// How many digits a line begins with.
fn leading_digits(line: &[u8]) -> usize
    ensures inside { result ≤ length line.now }
    ensures digits { (k : ℕ) → k < result → is_digit (slice_index line.now k) ≡ true }
    ensures stop { result < length line.now → is_digit (slice_index line.now result) ≡ false }
{
    line.iter()
        .position(|b| !b.is_ascii_digit())
        .unwrap_or(line.len())
}

// The number that digits write, `None` where it is 2^32 or more.
fn number(digits: &[u8]) -> Option<u32>
    ensures { MatchOption result (TooLarge digits.now) (IsDecimal digits.now) }
{
    let mut v: u32 = 0;
    for b in digits {
        v = v
            .checked_mul(10)?
            .checked_add(b.saturating_sub(b'0') as u32)?;
    }
    Some(v)
}

// The id and the name of a line, `None` where it is of another form.
pub fn parse_line<'a>(line: &'a [u8]) -> Option<Entry<'a>>
    ensures { MatchOption result (parse_line line.now ≡ other) (λ e. Parsed line.now e.id e.name.now) }
{
    let n = leading_digits(line);
    if n < 1 || 10 < n || line.len() <= n || line[n] != b' ' {
        return None;
    }
    let id = number(&line[..n])?;
    Some(Entry {
        id,
        name: &line[n + 1..],
    })
}
