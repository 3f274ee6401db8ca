//! The cleaners: the log of an inode loses the entries that nothing needs, while snapshots live.
//!
//! A cleaning is made in two: a walk over the log finds what may go, and takes the memory that it needs; the cleaning
//! itself, which is handed what the walk found, takes none. Both walks go from the head of the log in one pass, on average
//! linear in its entries and parts. What keeps an entry is read from the marks of its parts alone: nothing of snapshots or
//! records is asked. Beside them stands the release of a deferred record.
#![tactic(auto)]

mod cleaned;
mod cover;
mod fast;
pub mod laws;
mod plans;
mod release;
mod thorough;
mod walk;

pub use cleaned::Cleaned;
pub use fast::{fast_on, unlinkable};
pub use plans::{Unlinkable, Wanted};
pub use release::release_on;
pub use thorough::{prefers_thorough, thorough_on, wanted};
