//! The world of atomic steps: files and directories, which any number of actors change at once.
//!
//! An actor starts a call, and each `Go` of that actor makes one step of it. Between two steps of a call any other
//! actor may make steps. What is shared lies behind locks: a cell for each inode slot, and the book. A free list or
//! the pool of inode numbers is held for one step alone.
#![tactic(auto)]

mod audit;
mod beside;
mod call_name;
mod calls_end;
mod ending;
mod event;
mod format;
mod image_room;
mod inside;
mod kinds;
pub mod laws;
mod lent;
mod mount;
mod next;
pub mod next_laws;
mod next_step;
mod parts;
mod reports;
mod request;
mod reservation;
mod restart;
mod running;
pub mod scan_laws;
mod shared;
mod sink;
mod snaps;
pub mod start_laws;
mod step;
mod stop;
mod tree;
mod tree_to;
mod turn;
mod whole;
mod world;

pub use call_name::CallName;
pub use calls_end::MOST_STEPS;
pub use event::{Event, Reply};
pub use next_step::{NextStep, StepName};
pub use nv_audit::{Audited, DataBlocks, Image, SlotImage};
pub use nv_base::{
    Bytes, CommitNo, Epoch, Fault, Gen, Geometry, GeometryField, GeometryNumbers, Handle, Ino,
    Kind, Mode, Name,
};
pub use nv_calls::{Answer, Call, SnapshotOrCleanerCall};
pub use nv_entry::{NodeCopy, Path, Tree, TreeNode};
pub use nv_log::ChainImage;
pub use nv_parts::{Parts, Text};
pub use nv_reader::root;
pub use reports::{Lists, LogCounts, Space};
pub use sink::{Sink, SinkFault};
pub use snaps::{SnapCounts, Snaps};
pub use whole::CallFault;
pub use world::World;
