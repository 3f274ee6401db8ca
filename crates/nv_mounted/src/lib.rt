//! A mounted file system: what it answers the requests of a kernel, and what it has beside the world that it asks.
//!
//! [`Mount::answer`] makes of a request calls of one actor, and of their answers an [`Outcome`], which is told as a
//! [`nv_fuse::Reply`]. What a world has no place for stands beside it: how often a file is open, files without a name,
//! times and owners, the names of open directories, and the names of snapshots. All of this ends with the mount.
#![tactic(auto)]

mod asks;
mod clean;
mod directories;
mod entries;
mod files;
mod found;
mod hidden;
mod kept_tree;
mod listing;
mod make;
mod mount;
mod on_snapshots;
mod perform;
mod rename;
mod set;
mod shown;
mod side;
mod snapshots;
mod world;

pub use mount::Mount;
pub use nv_mount_beside::{Outcome, Refusal};
pub use world::{Core, Room};
