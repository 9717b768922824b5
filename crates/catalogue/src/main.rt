// Reads lines (decimal id, space, name), puts them two-way in 65,536 bytes, with repeats off, and prints entries and
// size, then the walk as id and name.
#![tactic(auto)]

ghost use Rattle.std.specs.Prelude.{◌<◌, ◌≤◌, ◌≡◌, length, OnOk, IfSome};
ghost use Rattle.writer.specs.State.{state_with};
ghost use Rattle.image.specs.Image.{head_size};
ghost use Rattle.catalogue.specs.Lines.{after_input};
ghost use Rattle.catalogue.specs.Left.{Left, Built, IsBuiltOf};

use image::Mode;
use reader::id_walk;
use std::io;
use std::io::{ErrorKind, Read, Write};
use writer::{CQDBWriter, Repeats};

mod parsing; // parsing.rt: a line, an id and a name
mod pieces; // pieces.rt: lines put one after the other, of an input that comes in pieces

// What is kept between the pieces of an input: the writer record, and how many bytes of the line at hand have come.
#[derive(Clone, Copy)]
pub struct Intake {
    pub writer: CQDBWriter,
    pub have: usize,
}

// Puts the lines of an input, read piece by piece: all of them, or those before a read that failed. A proved loop has
// to end, and nothing says that an input does: it counts its turns up to a number that no run uses up.
fn put_input<R: Read>(
    input: &mut R,
    w: CQDBWriter,
    counts: &mut [u32; 256],
    buf: &mut [u8],
    room: &mut [u8],
    piece: &mut [u8],
) -> (CQDBWriter, io::Result<()>)
    ensures left { w.length ≤ length room.old
        → Left (state_with w counts.old buf.old)
        (state_with result.0 counts.new buf.new) }
    ensures whole { OnOk result.1 (w.length ≤ length room.old → 0 < length piece.old
        → IfSome (R.remaining input.old) (λ bytes. state_with result.0 counts.new buf.new
        ≡ after_input (state_with w counts.old buf.old) bytes)) }
{
    let mut t = Intake { writer: w, have: 0 };
    for _ in 0..u64::MAX {
        match input.read(&mut *piece) {
            Ok(0) => return (t.end_input(counts, buf, &*room), Ok(())),
            Ok(n) => t.take_piece(&mut *counts, &mut *buf, &mut *room, &piece[..n]),
            Err(e) => return (t.end_input(counts, buf, &*room), Err(e)),
        }
    }
    (
        t.end_input(counts, buf, &*room),
        Err(io::Error::from(ErrorKind::TimedOut)),
    )
}

// What is printed first: the number of entries, and the size of the image, which is the buffer's first bytes.
#[derive(Clone, Copy, Default)]
struct Totals {
    entries: u32,
    size: u32,
}

// Builds the image of the lines of an input in a lent buffer. Where the buffer takes a head, neither begin nor close
// refuses. Where a read fails, the image is that of the lines before it.
fn build<R: Read>(
    input: &mut R,
    counts: &mut [u32; 256],
    buf: &mut [u8],
    room: &mut [u8],
    piece: &mut [u8],
) -> (Totals, io::Result<()>)
    ensures built { head_size ≤ length buf.old → length buf.old ≤ length room.old
        → Built (length buf.old) result.0.entries result.0.size buf.new }
    ensures whole { OnOk result.1 (head_size ≤ length buf.old → length buf.old ≤ length room.old
        → 0 < length piece.old → IfSome (R.remaining input.old) (λ bytes.
        IsBuiltOf (length buf.old) bytes result.0.entries result.0.size buf.new)) }
{
    let Ok(fresh) = writer::begin(Mode::Twoway, Repeats::Off, &mut *counts, &*buf) else {
        return (Totals::default(), Ok(()));
    };
    let (w, read) = put_input(input, fresh, &mut *counts, &mut *buf, room, piece);
    let Ok(size) = w.close(&*counts, buf) else {
        return (Totals::default(), read);
    };
    let entries = w.entries;
    (Totals { entries, size }, read)
}

// Two things on a line, with a space between them: a number, and bytes.
fn print_line<W: Write>(output: &mut W, n: u32, rest: &[u8]) -> io::Result<()> {
    write!(output, "{n} ")?;
    output.write_all(rest)?;
    output.write_all(b"\n")
}

// The walk, as id and name.
fn print_walk<W: Write>(output: &mut W, image: &[u8]) -> io::Result<()> {
    let mut walk = id_walk::iter();
    while let Some(item) = id_walk::next(image, walk) {
        let place = item.place;
        print_line(
            output,
            item.id,
            &image[place.start..place.start + place.len],
        )?;
        walk = item.iter;
    }
    Ok(())
}

// Entries and size, then the walk of the image, which is the buffer's first bytes. It asks for what it is handed to
// be the image of some input, in 65,536 bytes.
fn print_image<W: Write>(output: &mut W, entries: u32, size: u32, buf: &[u8]) -> io::Result<()>
    requires { Built 65536 entries size buf.now }
{
    writeln!(output, "{entries} {size}")?;
    let n = size as usize;
    print_walk(output, &buf[..n])
}

// A read or a write that fails ends the program with its error.
fn main(rt: HostRuntime) -> io::Result<()> {
    let mut counts = [0u32; 256];
    let mut buf = [0u8; 65536];
    let mut room = [0u8; 65536];
    let mut piece = [0u8; 65536];
    let (image, read) = build(
        &mut rt.reader(),
        &mut counts,
        &mut buf,
        &mut room,
        &mut piece,
    );
    read?;
    print_image(&mut io::writer(&rt), image.entries, image.size, &buf)
}
