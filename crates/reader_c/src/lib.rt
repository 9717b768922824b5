// Exports for C of the calls that stand on the reader alone, a module for each subject. Each is a thin call of the
// proved function that bears the work, and answers numbers or a struct of plain numbers.
#![tactic(auto)]

pub mod ordering; // ordering.rt: cqdb_references_first
pub mod sheets; // sheets.rt: cqdb_sheet_read, cqdb_sheet_write
pub mod pages; // pages.rt: cqdb_page_length, cqdb_page, cqdb_page_part
pub mod bundles; // bundles.rt: cqdb_bundle_open, cqdb_bundle_append, cqdb_bundle_count
pub mod windows; // windows.rt: cqdb_name_on
pub mod change; // change.rt: cqdb_next_change, cqdb_moved
pub mod layout; // layout.rt: cqdb_entry, cqdb_table
