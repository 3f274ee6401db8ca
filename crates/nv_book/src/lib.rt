//! The value behind the commit lock: commits, snapshots with their manifests, and journals.
//!
//! A commit that kills a part retires its record: into the manifest of the youngest living snapshot that holds the
//! part, or nowhere if none does. Dropping a snapshot moves the records of its manifest down to the next older one,
//! or to the deferred list, from which they are picked for release.
#![tactic(auto)]

mod base;
mod book;
mod event;
mod held_spans;
mod history;
pub mod laws;
mod manifest;
mod record;
mod record_iter;
mod record_store;
mod records;
mod retired;
mod run;
mod runs;
mod spare_nodes;

pub use base::Base;
pub use book::Book;
pub use event::Event;
pub use history::{History, LATEST};
pub use manifest::Manifest;
pub use record::Record;
pub use record_iter::RecordIter;
pub use records::Records;
pub use retired::Retired;
