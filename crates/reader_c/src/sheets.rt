// The round sheet, for C.
ghost use Rattle.std.specs.Prelude.{◌≡◌, length};
ghost use Rattle.sheet.specs.SheetReading.{read_sheet};
ghost use Rattle.sheet.specs.SheetWriting.{section_lists, writing, after_writing};
ghost use Rattle.reader_c.specs.SheetAnswers.{sheet_answer, length_answer, parts_answer, no_sheet};

use sheet::Sheet;

// The refusal's number, 0 when the file was accepted; then, for references, wall prisms and retired prisms, the
// number of ids and the offset of the first one's bytes, all 0 when refused.
#[repr(C)]
#[derive(Clone, Copy)]
pub struct SheetAnswer {
    pub refusal: u32,
    pub counts: [u32; 3],
    pub starts: [u64; 3],
}

// The refusal's number, 0 when accepted; the file's length, 0 when refused.
#[repr(C)]
#[derive(Clone, Copy)]
pub struct LengthAnswer {
    pub refusal: u32,
    pub length: u64,
}

// The parts of a file that was accepted.
fn parts(s: Sheet) -> SheetAnswer
    ensures { result ≡ parts_answer s }
{
    let a = s.references;
    let b = s.walls;
    let c = s.retired;
    SheetAnswer {
        refusal: 0,
        counts: [a.count, b.count, c.count],
        starts: [a.start as u64, b.start as u64, c.start as u64],
    }
}

// A file that is refused with a number.
fn no_sheet(refusal: u32) -> SheetAnswer
    ensures { result ≡ no_sheet refusal }
{
    SheetAnswer {
        refusal,
        counts: [0, 0, 0],
        starts: [0, 0, 0],
    }
}

// The parts of a file's three sections, or refusal 19 or 20.
#[unsafe(no_mangle)]
pub extern "C" fn cqdb_sheet_read(file: &[u8]) -> SheetAnswer
    ensures { result ≡ sheet_answer (read_sheet file.now) }
{
    match sheet::read(file) {
        Ok(s) => parts(s),
        Err(refusal) => no_sheet(u32::from(refusal)),
    }
}

// Writes the sheet of three lists from the buffer's front, and gives its length; or refusal 21.
#[unsafe(no_mangle)]
pub extern "C" fn cqdb_sheet_write(
    buf: &mut [u8],
    references: &[u32],
    walls: &[u32],
    retired: &[u32],
) -> LengthAnswer
    ensures answer { result ≡ length_answer
        (writing (length buf.old)
        (section_lists references.now walls.now retired.now)) }
    ensures leaves { buf.new
        ≡ after_writing buf.old
        (section_lists references.now walls.now retired.now) }
{
    match sheet::write(&mut *buf, references, walls, retired) {
        Ok(n) => LengthAnswer {
            refusal: 0,
            length: n as u64,
        },
        Err(refusal) => LengthAnswer {
            refusal: u32::from(refusal),
            length: 0,
        },
    }
}
