// Lines about an image that is read: changes of it, and what the original answers on it.
use super::hex;
use super::tags::{Ask, Change};
use super::verdict::Verdict;
use reader::{Iter, id_walk};

// The image that is read, which is the first `len` bytes of a buffer, and a walk over its ids.
#[derive(Drop)]
pub struct Reading<'a> {
    pub buf: &'a mut [u8],
    pub len: usize,
    pub walk: Iter,
}

// Is the answer the one that a line stores, with this number and this name?
fn agrees(ask: Ask, n: u32, name: &[u8], walk: Iter, image: &[u8]) -> bool {
    match ask {
        Ask::Open => reader::open(image) == Ok(n),
        Ask::Fail => reader::open(image).is_err_and(|refusal| u32::from(refusal) == n),
        Ask::Find => reader::to_id(image, name)
            .hit
            .is_some_and(|hit| hit.id == n),
        Ask::Miss => reader::to_id(image, name).hit.is_none(),
        Ask::Name => reader::name_given(image, n) == Some(name),
        Ask::Void => reader::name_given(image, n).is_none(),
        Ask::Home => consistency::home(image, n),
        Ask::Away => !consistency::home(image, n),
        Ask::Left => id_walk::size_hint(image, walk) == n,
        Ask::Item => id_walk::next(image, walk).is_some_and(|item| item.id == n
            && reader::name(image, item.id) == name),
        Ask::Ends => id_walk::next(image, walk).is_none(),
    }
}

impl<'a> Reading<'a> {
    // A line that changes the image.
    pub(super) fn change(
        &mut self,
        change: Change,
        first: &[u8],
        second: &[u8],
    ) -> Option<Verdict> {
        let n = hex::number(first)? as usize;
        match change {
            Change::Zero => {
                self.len = n;
                self.buf.get_mut(..n)?.fill(0);
            }
            Change::Edit => {
                hex::decode(second, self.buf.get_mut(n..)?)?;
            }
            Change::Size => self.len = n,
        }
        Some(Verdict::Silent)
    }

    // The image, where the buffer is as long.
    fn image(&self) -> Option<&[u8]> {
        let len = self.len;
        self.buf.get(..len)
    }

    // A line that begins a new walk.
    pub(super) fn begin_walk(&mut self) -> Option<Verdict> {
        self.image()?;
        self.walk = id_walk::iter();
        Some(Verdict::Silent)
    }

    // The walk after a line that asks: one about its next step takes it.
    fn stands(&self, ask: Ask) -> Option<Iter> {
        let walk = self.walk;
        let image = self.image()?;
        Some(match ask {
            Ask::Item | Ask::Ends => id_walk::next(image, walk).map_or(walk, |item| item.iter),
            _ => walk,
        })
    }

    // A line that asks. One about a missing name, or the end of a walk, has no number.
    pub(super) fn ask<'b>(
        &mut self,
        ask: Ask,
        first: &'b [u8],
        second: &'b [u8],
    ) -> Option<Verdict> {
        let walk = self.walk;
        self.walk = self.stands(ask)?;
        let (n, name) = match ask {
            Ask::Miss | Ask::Ends => (0, first),
            _ => (hex::number(first)?, second),
        };
        let mut room = [0u8; 1024];
        let k = hex::decode(name, &mut room)?;
        let image = self.image()?;
        Some(Verdict::from(agrees(ask, n, &room[..k], walk, image)))
    }
}
