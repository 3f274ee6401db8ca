//! A store of keys and values that stands on this library, written to be copied: each of its promises is proved from the
//! laws of calls that are made one at a time.
//!
//! Keys are names of the root, and a value is the bytes of a file. A value is written to a file of its own, which then
//! takes the key's place. So a put is wholly there or not at all. A backup is a snapshot.
#![tactic(auto)]

pub mod laws;
mod steps;
mod store;

pub use store::Store;
