//! What a mounted file system answers, apart from its world: the numbers of its nodes, the errors of its refusals, and
//! the attributes that are kept beside the world.
//!
//! A kernel names a node by a number. [`node_of`] makes it of a handle, slot and generation, and [`handle_of`] the
//! handle of it, one to one: so a number whose node is gone never names a newer one. [`errno_of`] tells a fault as the
//! kernel tells errors. Times and owners are no part of a world, and are kept in a [`Kept`].
#![tactic(auto)]

mod faults;
mod kept;
mod nodes;

pub use faults::errno_of;
pub use kept::{Kept, Shape, Time, attributes_of};
pub use nodes::{handle_of, node_of, nodes_and_handles_are_one_to_one};
