//! The tests of `nv_fuse` and `nv_mount_answers`: requests and replies whose bytes are worked out by hand from the
//! structures of `linux/fuse.h`, as they are in 7.31, and what such a reply tells of a node.
//!
//! They stand in a crate of their own since a crate with tests is proved twice.
#![tactic(auto)]

#[cfg(test)]
mod answers;
#[cfg(test)]
mod compare;
#[cfg(test)]
mod files;
#[cfg(test)]
mod message;
#[cfg(test)]
mod names;
#[cfg(test)]
mod nodes;
#[cfg(test)]
mod replies;
#[cfg(test)]
mod stream;
