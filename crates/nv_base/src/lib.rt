//! Numbers, names and faults of the file system core.
//!
//! Each kind of number is a type of its own, which contracts see as a natural number. A [`Geometry`] is
//! within the limits of [`limits`] and a [`Name`] is lawful by their types. A [`Fault`] is why a call was
//! refused.
#![tactic(auto)]

mod fault;
mod geometry;
mod items;
pub mod limits;
mod memory;
mod name;
mod node;
mod numbers;

pub use fault::{Fault, GeometryField, ImageFault, MismatchPart, ScriptFaultKind};
pub use geometry::{Geometry, GeometryNumbers, home_ranges_cut_the_blocks};
pub use items::{Bytes, Items};
pub use memory::NoMemory;
pub use name::Name;
pub use node::{Kind, Mode};
pub use numbers::{BlockNo, CommitNo, EntryId, Epoch, Gen, Handle, Ino, ids_are_ordered};
