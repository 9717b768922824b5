// The round sheet: a file of three sections in fixed order, references, wall prisms and retired prisms. Each is a
// 16-bit count and that many 32-bit ids, little-endian.
#![tactic(auto)]

pub mod reading; // reading.rt: read, part, section, id_at
pub mod writing; // writing.rt: write

pub use reading::{id_at, part, read, section};
pub use writing::write;

// The part of a file that holds a section's ids, as a place: the offset of its first byte, and the number of its ids.
#[derive(Clone, Copy)]
pub struct SectionPlace {
    pub start: usize,
    pub count: u32,
}

// The parts of the three sections.
#[derive(Clone, Copy)]
pub struct Sheet {
    pub references: SectionPlace,
    pub walls: SectionPlace,
    pub retired: SectionPlace,
}

// One of the three sections.
#[derive(Clone, Copy)]
pub enum Which {
    References,
    Walls,
    Retired,
}
