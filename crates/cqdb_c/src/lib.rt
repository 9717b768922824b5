// The C interface: what programs in other languages link, declared in include/cqdb.h. Each function is a thin call of
// the proved function that bears the work, and answers a number or a struct of plain numbers. cqdb_to_id stands in a
// crate of its own, lookup_c; the archive holds both.
#![tactic(auto)]

pub mod version; // version.rt: cqdb_version_number
pub mod hash; // hash.rt: cqdb_hash
pub mod opening; // opening.rt: cqdb_open
pub mod naming; // naming.rt: cqdb_to_str, cqdb_panel, cqdb_readings_agree, cqdb_size_hint, cqdb_home
// writing.rt: cqdb_begin_parts, cqdb_put_parts, cqdb_close_parts, cqdb_grown_parts, cqdb_size_with_parts
pub mod writing;
