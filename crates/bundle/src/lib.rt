// Several walls in a file: a bundle holds images back to back, and each size word says where the next begins. Open
// one by its position, append one, count them. No call has a `requires`; each answers what 02 (i) fixes for the bytes
// that it is lent.
#![tactic(auto)]

pub mod walking; // walking.rt: place, part, open, count
pub mod appending; // appending.rt: append

pub use appending::append;
pub use walking::{count, open, part, place};

// Where an image stands: its first byte's place and how many bytes it has.
#[derive(Clone, Copy)]
pub struct ImagePlace {
    pub start: usize,
    pub size: usize,
}

// What opening answers: the number of entries (`num` of cqdb-rs) and where the image stands.
#[derive(Clone, Copy)]
pub struct OpenedImage {
    pub num: u32,
    pub start: usize,
    pub size: usize,
}
