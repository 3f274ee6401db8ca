//! Records as bytes: what a file keeps of a world of one caller.
//!
//! A record is a call, a stop, or a note of the caller's own. Its bytes are a tag and its fields, one behind the
//! other: numbers of eight bytes with the lowest first, and strings of bytes with their length before them. So no
//! two records have one text, and none is the front of another.
#![tactic(auto)]

mod fault;
pub mod laws;
mod reading;
mod record;
mod writing;

pub use fault::{Fault, ReadError, Wanted};
pub use reading::read_record;
pub use record::{IMAGE_TAG, Record};
pub use writing::append_record;
