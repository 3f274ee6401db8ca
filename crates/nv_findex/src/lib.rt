//! Where the pages of a file lie: a map from page to log entry, kept as sorted runs.
#![tactic(auto)]

mod empty_places;
mod file_index;
mod page_ref;
mod page_run;
mod put;
mod run_rows;
mod runs;
mod search;

pub use file_index::FileIndex;
pub use page_ref::PageRef;
pub use page_run::PageRun;
