// Exports for C of the calls about a report that shall leave, a module for each subject.
#![tactic(auto)]

pub mod reports; // reports.rt: cqdb_preflight_parts, cqdb_preflight_first_parts
pub mod dates; // dates.rt: cqdb_preflight_dates_words
