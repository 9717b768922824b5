// Lines about the writer: its calls, and what the image is that close made last.
use super::tags::{Call, Look};
use super::verdict::Verdict;
use super::{has_hash, hex};
use image::Mode;
use jhash::refusals::Refusal;
use writer::{CQDBWriter, Repeats};

// The writer and what is lent to it; the size of the image that close made last, and how many of its bytes have been
// compared.
#[derive(Drop)]
pub struct Writing<'a> {
    pub writer: CQDBWriter,
    pub counts: &'a mut [u32; 256],
    pub buf: &'a mut [u8],
    pub size: usize,
    pub done: usize,
}

// The hashes of an image with two start values.
fn sums(image: &[u8], first: &[u8], second: &[u8]) -> Option<Verdict> {
    let a = hex::number(first)?;
    let b = hex::number(second)?;
    Some(Verdict::from(has_hash(image, 0, a) && has_hash(image, 0xdead_beef, b)))
}

impl<'a> Writing<'a> {
    // A fresh record for the first n bytes of the buffer, in the repeats mode: the Rust takes every repeat.
    fn begin(&mut self, mode: Mode, n: usize) -> Option<Verdict> {
        let buf = self.buf.get_mut(..n)?;
        let Ok(fresh) = writer::begin(mode, Repeats::On, &mut *self.counts, &*buf) else {
            return Some(Verdict::Different);
        };
        self.writer = fresh;
        self.size = 0;
        self.done = 0;
        Some(Verdict::Silent)
    }

    // A put, into as many bytes of the buffer as the record is for. It is to give this answer.
    fn put(&mut self, due: Result<(), Refusal>, id: u32, name: &[u8]) -> Option<Verdict> {
        let mut room = [0u8; 1024];
        let k = hex::decode(name, &mut room)?;
        let buf = self.buf.get_mut(..self.writer.length as usize)?;
        let answer = self.writer.put(&mut *self.counts, buf, &room[..k], id);
        Some(Verdict::from(answer == due))
    }

    // The size that close gives.
    fn close(&mut self, size: u32) -> Option<Verdict> {
        let buf = self.buf.get_mut(..self.writer.length as usize)?;
        let Ok(given) = self.writer.close(&*self.counts, buf) else {
            return Some(Verdict::Different);
        };
        self.size = given as usize;
        self.done = 0;
        Some(Verdict::from(given == size))
    }

    // A line that calls the writer.
    pub(super) fn call(&mut self, call: Call, first: &[u8], second: &[u8]) -> Option<Verdict> {
        let n = hex::number(first)?;
        match call {
            Call::New2 => self.begin(Mode::Twoway, n as usize),
            Call::New1 => self.begin(Mode::Oneway, n as usize),
            Call::Puts => self.put(Ok(()), n, second),
            Call::Full => self.put(Err(Refusal::NoRoom), n, second),
            Call::Clos => self.close(n),
        }
    }

    // The image of the last close.
    fn image(&self) -> Option<&[u8]> {
        let size = self.size;
        self.buf.get(..size)
    }

    // The next n bytes of the image are as this says; they have then been compared.
    fn next_are<F: FnOnce(&[u8]) -> bool>(&mut self, n: usize, due: F) -> Option<Verdict>
        requires { F.IsAlwaysCallable due }
    {
        let done = self.done;
        let Some(next) = self.image()?.get(done..)?.get(..n) else {
            return Some(Verdict::Different);
        };
        let same = due(next);
        self.done = done.wrapping_add(n);
        Some(Verdict::from(same))
    }

    // The next bytes of the image are these.
    fn part(&mut self, text: &[u8]) -> Option<Verdict> {
        let mut room = [0u8; 1024];
        let n = hex::decode(text, &mut room)?;
        self.next_are(n, |next| next == &room[..n])
    }

    // The next bytes, so many, are zeros.
    fn nils(&mut self, text: &[u8]) -> Option<Verdict> {
        let n = hex::number(text)? as usize;
        self.next_are(n, |next| next.iter().all(|b| *b == 0))
    }

    // A line about the image of the last close.
    pub(super) fn look(&mut self, look: Look, first: &[u8], second: &[u8]) -> Option<Verdict> {
        let image = self.image()?;
        match look {
            Look::Sums => sums(image, first, second),
            Look::Part => self.part(first),
            Look::Nils => self.nils(first),
            Look::Last => Some(Verdict::from(self.done == self.size)),
        }
    }
}
