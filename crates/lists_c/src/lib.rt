// Exports for C of the calls about whole images and lists: loads, canonical images, search lengths, one to one; a
// module each.
#![tactic(auto)]

pub mod loads; // loads.rt: cqdb_load
pub mod images; // images.rt: cqdb_canonical
pub mod lengths; // lengths.rt: cqdb_average, cqdb_lengths
pub mod pairs; // pairs.rt: cqdb_one_to_one
