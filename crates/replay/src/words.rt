// A line taken apart.

// Up to three words of a line and what follows them, with a space before each but the first; empty where the line has
// ended.
#[derive(Clone, Copy)]
pub struct Words<'a> {
    pub tag: &'a [u8],
    pub first: &'a [u8],
    pub second: &'a [u8],
    pub rest: &'a [u8],
}

impl<'a> Words<'a> {
    pub(super) fn of(line: &'a [u8]) -> Words<'a> {
        let end = &line[line.len()..];
        let mut words = line.splitn(4, |b| *b == b' ');
        Words {
            tag: words.next().unwrap_or(end),
            first: words.next().unwrap_or(end),
            second: words.next().unwrap_or(end),
            rest: words.next().unwrap_or(end),
        }
    }
}

// Is a line skipped: an empty one, or one that begins with #?
pub(super) fn skipped(line: &[u8]) -> bool {
    line.first().is_none_or(|b| *b == b'#')
}
