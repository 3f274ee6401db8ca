//! What is read of a world: the node that an inode is or was, by its cell, and the walk of the tree.
//!
//! [`show_on`] gives the node at the end of an epoch, and [`settled_on`] the node now, up to a tail that a journal has
//! noted. A [`Walk`] says which node it wants next, its caller hands that node in, and the walk gives it out with its
//! path. So it is the same walk wherever the nodes come from. A [`Showing`] keeps a walk between its visits, with the
//! nodes that it has seen: each visit is lent one cell.
#![tactic(auto)]

mod attributes;
mod bytes;
mod epochs;
pub mod laws;
mod names;
mod node;
mod pages;
mod show;
mod showing;
mod walk;
mod way;

pub use show::{copy_on, settled_on, show_on};
pub use showing::Showing;
pub use walk::{Walk, root};
