// The verdicts on lines, and how many lines had each.
use std::io;
use std::io::Write;

// What became of a line that could be read: its stored answer is the one that was given, or another; or it asks for no
// answer.
#[derive(Clone, Copy)]
pub enum Verdict {
    Equal,
    Different,
    Silent,
}

// Whether an answer is the stored one.
impl From<bool> for Verdict {
    fn from(same: bool) -> Verdict {
        if same {
            Verdict::Equal
        } else {
            Verdict::Different
        }
    }
}

// How many lines had a stored answer that was given, that was not, and how many could not be read.
#[derive(Clone, Copy, Default)]
pub struct Counts {
    pub equal: u64,
    pub different: u64,
    pub malformed: u64,
}

fn print_line<W: Write>(output: &mut W, label: &[u8], line: &[u8]) -> io::Result<()> {
    output.write_all(label)?;
    output.write_all(line)?;
    output.write_all(b"\n")
}

impl Counts {
    // One more line with this verdict, `None` where it could not be read. It is printed where it is different or could
    // not be read.
    pub(super) fn count<W: Write>(
        &mut self,
        output: &mut W,
        line: &[u8],
        verdict: Option<Verdict>,
    ) -> io::Result<()> {
        match verdict {
            Some(Verdict::Equal) => self.equal = self.equal.wrapping_add(1),
            Some(Verdict::Different) => {
                print_line(output, b"different: ", line)?;
                self.different = self.different.wrapping_add(1);
            }
            Some(Verdict::Silent) => {}
            None => {
                print_line(output, b"malformed: ", line)?;
                self.malformed = self.malformed.wrapping_add(1);
            }
        }
        Ok(())
    }

    // Writes the counts out.
    pub(super) fn print<W: Write>(self, output: &mut W) -> io::Result<()> {
        writeln!(output, "equal {}", self.equal)?;
        writeln!(output, "different {}", self.different)?;
        writeln!(output, "malformed {}", self.malformed)
    }
}
