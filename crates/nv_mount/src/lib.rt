//! What a mount makes anew of a device that has stopped: cells, free lists, the pool of inode numbers and the book.
//!
//! A [`Plan`] takes all memory, of logs, journals and snapshots by reference. What follows takes none: [`Plan::put`] is
//! handed slot by slot, gives each block home, and makes the cell with those that its entries say. So the mount of an
//! image and a machine that stops and goes on share both.
#![tactic(auto)]

mod build;
mod homes;
mod logs;
mod missing;
mod mount;
mod parts;
mod plan;
mod slots;
mod view;

pub use homes::{dismantle_lists, give_all, give_queue};
pub(crate) use missing::missing_blocks;
pub use mount::{MountedParts, mount_parts};
pub use plan::Plan;
pub use slots::close_slot;
pub use view::{SlotView, View};
