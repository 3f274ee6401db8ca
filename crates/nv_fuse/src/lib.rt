//! The bytes of the protocol by which a Linux kernel asks a file system in a process: FUSE 7.31.
//!
//! A [`Request`] is read of the bytes of one message, whatever they are, and a [`Reply`] is written as bytes. The tables
//! of `specs` give each field's name, place and width, and [`laws`] say that they read back. A stream of requests is
//! cut where their lengths tell, by [`Front`]. All numbers have their lowest byte first.
#![tactic(auto)]

mod attributes;
mod directory;
mod errno;
mod front;
mod header;
pub mod laws;
mod operation;
mod put;
mod read;
mod reply;
mod request;

pub use attributes::{Attributes, Entry};
pub use directory::{Listed, ListedKind};
pub use errno::Errno;
pub use front::Front;
pub use header::Header;
pub use operation::{Operation, SetAttributes};
pub use reply::{Agreement, OpenFile, Reply, Statistics};
pub use request::Request;
