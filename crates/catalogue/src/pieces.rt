// Lines put one after the other, of an input that comes in pieces. The line at hand is gathered in a lent room; one
// that fills the room is dropped.
ghost use Rattle.std.specs.Prelude.{◌≡◌};
ghost use Rattle.writer.specs.State.{state_with};
ghost use Rattle.catalogue.specs.Lines.{after_put_line};
ghost use Rattle.catalogue.specs.Steps.Pieces.{gathering, line_ended, take_byte, take_piece, input_ended};
ghost use Rattle.catalogue.specs.Steps.Contracts.{ByteGathered};

use super::Intake;
use super::parsing::parse_line;
use writer::CQDBWriter;

// Puts what a line says; a line of another form, or whose put is refused, is skipped.
pub fn put_line(w: &mut CQDBWriter, counts: &mut [u32; 256], buf: &mut [u8], line: &[u8])
    ensures { state_with w.new counts.new buf.new
        ≡ after_put_line (state_with w.old counts.old buf.old) line.now }
{
    if let Some(entry) = parse_line(line) {
        let _ = w.put(counts, buf, entry.name, entry.id);
    }
}

impl Intake {
    // One byte more of the line at hand is stored and counted, while there is room.
    fn gather(&mut self, room: &mut [u8], b: u8)
        ensures { ByteGathered self.old room.old b self.new room.new }
    {
        if self.have < room.len() {
            room[self.have] = b;
            self.have += 1;
        }
    }

    // The line at hand has ended.
    fn end_line(&mut self, counts: &mut [u32; 256], buf: &mut [u8], room: &[u8])
        ensures { gathering self.new counts.new buf.new room.now
            ≡ line_ended (gathering self.old counts.old buf.old room.now) }
    {
        let have = self.have;
        if have < room.len() {
            put_line(&mut self.writer, counts, buf, &room[..have]);
        }
        self.have = 0;
    }

    // The next byte of an input.
    fn take_byte(&mut self, counts: &mut [u32; 256], buf: &mut [u8], room: &mut [u8], b: u8)
        ensures { gathering self.new counts.new buf.new room.new
            ≡ take_byte (gathering self.old counts.old buf.old room.old) b }
    {
        if b == b'\n' {
            self.end_line(counts, buf, &*room);
        } else {
            self.gather(room, b);
        }
    }

    // The next piece of an input: each line that ends in it is put, and the line at hand is gathered.
    pub fn take_piece(
        &mut self,
        counts: &mut [u32; 256],
        buf: &mut [u8],
        room: &mut [u8],
        piece: &[u8],
    )
        ensures { gathering self.new counts.new buf.new room.new
            ≡ take_piece (gathering self.old counts.old buf.old room.old) piece.now }
    {
        for b in piece {
            self.take_byte(&mut *counts, &mut *buf, &mut *room, *b);
        }
    }

    // The input's end, which ends the last line, too.
    pub fn end_input(mut self, counts: &mut [u32; 256], buf: &mut [u8], room: &[u8]) -> CQDBWriter
        ensures { state_with result counts.new buf.new
            ≡ input_ended (gathering self counts.old buf.old room.now) }
    {
        self.end_line(counts, buf, room);
        self.writer
    }
}
