//! What stands beside the world of a mounted file system, and how its requests are named and answered, apart from the world.
//!
//! A [`Beside`] has of one node how often it is open, whether it has a name, how often it was changed, and its times and
//! owners. [`Nodes`] has them all. [`owner_in`] and [`mode_in`] tell what a new node has of its directory. The name of a request is checked by [`name`], a [`Refusal`] is told as an error, and an
//! [`Outcome`] as a reply.
#![tactic(auto)]

mod beside;
mod inherited;
mod names;
mod outcome;
mod refusal;
mod shown;

pub use beside::{Beside, Nodes};
pub use inherited::{Owner, mode_in, owner_in};
pub use names::{HIDDEN, NAME, SNAPSHOTS, copied, hidden_name, is_reserved, is_root, name, node};
pub use outcome::Outcome;
pub use refusal::Refusal;
pub use shown::{
    FIRST, VALID, agreement, attributes, entry, number, opened_file, shape_in_snapshot,
};
