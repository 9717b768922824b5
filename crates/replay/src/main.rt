// Replays stored answers of lookup3 and of the original library, and counts which of them the proved libraries give.
//
// A line of the input is a tag of four letters and up to three words: numbers have eight hexadecimal digits, bytes
// two each, and a missing name is the empty one. A line that begins with #, and an empty one, is skipped. A line
// whose stored answer is not the one that was given is printed; the input has one such line on purpose for each kind
// of line that has an answer.
//
// The name hash (main.rt):
//     hash 00000001 460423ad 68    the hash of the name with this start value
// The rotation by table (rotations.rt):
//     rota 00000005 0000ffff 00c0ffee    so many bits: the high and the low half of the sum of 131,072 rotated words
// The image to be read is the first bytes of a buffer (read.rt):
//     zero 00000818                it is so many zero bytes
//     edit 00000018 01020304       these bytes stand at this place of the buffer
//     size 00000817                it is the buffer's first bytes, so many
//     open 00000002                open gives the number of entries
//     fail 00000007                open gives this refusal
//     find 00000005 41             the name finds the id
//     miss 41                      the name finds nothing
//     name 00000005 41             the id gives the name
//     void 00000005                the id gives nothing
//     home 00000005                the id is home
//     away 00000005                it is not
//     walk                         a new walk over the ids
//     left 00000006                its upper hint
//     item 00000000 41             the next id and its name
//     ends                         its end
// The writer, in a buffer of its own (write.rt):
//     new2 00001000                a fresh two-way record, for a buffer of so many bytes
//     new1 00001000                a one-way one
//     puts 00000005 41             a put of id 5 and the name A, which is accepted
//     full 00000005 41             one that is refused for want of room
//     clos 0000083c                the size that close gives
//     sums 01234567 89abcdef       the hashes of the closed image, with the start values 0 and deadbeef
//     part 4351                    its next bytes are these
//     nils 00000010                its next bytes, so many, are zeros
//     last                         it ends here
#![tactic(auto)]

ghost use Rattle.std.specs.Prelude.{◌≤◌, length, IfOk};

use image::Mode;
use read::Reading;
use std::io;
use std::io::{Read, Write};
use tags::Tag;
use verdict::{Counts, Verdict};
use words::Words;
use write::Writing;
use writer::Repeats;

mod hex; // hex.rt: numbers and bytes written as hexadecimal digits
mod read; // read.rt: lines about an image that is read
mod rotations; // rotations.rt: lines about the rotation by table
mod tags; // tags.rt: the four letters that lines begin with
mod verdict; // verdict.rt: the counts of the verdicts
mod words; // words.rt: a line's words
mod write; // write.rt: lines about the writer and its image

// Has a name this hash?
fn has_hash(name: &[u8], start: u32, want: u32) -> bool {
    jhash::jhash(name, start) == Ok(want)
}

// The verdict on a start value, a hash and a name.
fn hashed(start: &[u8], want: &[u8], name: &[u8]) -> Option<Verdict> {
    let mut room = [0u8; 1024];
    let n = hex::decode(name, &mut room)?;
    let start = hex::number(start)?;
    let want = hex::number(want)?;
    Some(Verdict::from(has_hash(&room[..n], start, want)))
}

// Any line that is not skipped; `None` where it cannot be read.
fn any_line(reading: &mut Reading<'_>, writing: &mut Writing<'_>, line: &[u8]) -> Option<Verdict> {
    let words = Words::of(line);
    let first = words.first;
    let second = words.second;
    match Tag::parse(words.tag)? {
        Tag::Hash => hashed(first, second, words.rest),
        Tag::Rota => rotations::line(first, second, words.rest),
        Tag::Change(change) => reading.change(change, first, second),
        Tag::Walk => reading.begin_walk(),
        Tag::Ask(ask) => reading.ask(ask, first, second),
        Tag::Call(call) => writing.call(call, first, second),
        Tag::Look(look) => writing.look(look, first, second),
    }
}

// Every line of a text.
fn replay<W: Write>(
    output: &mut W,
    text: &[u8],
    reading: &mut Reading<'_>,
    writing: &mut Writing<'_>,
) -> io::Result<Counts> {
    let mut seen = Counts::default();
    for line in text.split(|b| *b == b'\n') {
        if !words::skipped(line) {
            let verdict = any_line(&mut *reading, &mut *writing, line);
            seen.count(&mut *output, line, verdict)?;
        }
    }
    Ok(seen)
}

// Reads an input to its end, or until the buffer is full, and says how many bytes that is. A proved loop has to end,
// and nothing says that an input does: it counts its turns up to a number that no run uses up.
fn read_full<R: Read>(input: &mut R, buf: &mut [u8]) -> io::Result<usize>
    ensures { IfOk result (λ n. n ≤ length buf.old) }
{
    let mut n = 0;
    for _ in 0..u64::MAX {
        let got = input.read(&mut buf[n..])?;
        if got == 0 {
            break;
        }
        n += got;
    }
    Ok(n)
}

// A read or a write that fails ends the program with its error. Before the first line there is no image, and a record
// for no bytes, which fits nothing.
fn main(rt: HostRuntime) -> io::Result<()> {
    let mut text = [0u8; 262144];
    let mut image = [0u8; 16384];
    let mut buf = [0u8; 16384];
    let mut counts = [0u32; 256];
    let n = read_full(&mut rt.reader(), &mut text)?;
    let mut output = io::writer(&rt);
    let mut reading = Reading {
        buf: &mut image,
        len: 0,
        walk: reader::id_walk::iter(),
    };
    let mut writing = Writing {
        writer: writer::record::fresh_writer(Mode::Twoway, Repeats::On, 0),
        counts: &mut counts,
        buf: &mut buf,
        size: 0,
        done: 0,
    };
    replay(&mut output, &text[..n], &mut reading, &mut writing)?.print(&mut output)
}
