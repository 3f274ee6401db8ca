//! Blocks with one owner, the free lists that hand them out, and the pool of inode numbers.
//!
//! A [`Block`] can't be copied, cloned or dropped: what a list hands out stands in one place, in a [`FreeList`],
//! a [`Hand`] or a part of the file system, until [`Block::into_bytes`] or a `dismantle` ends it. That each
//! number is in the world once rests on its lists being made once, which the types don't say.
#![tactic(auto)]

mod block;
mod chain_pages;
mod free_list;
mod giving;
mod hand;
mod homes;
mod inode_pool;
mod laws;
mod places;
mod queue;
mod runs;

pub use block::Block;
pub use chain_pages::ChainPages;
pub use free_list::FreeList;
pub use hand::Hand;
pub use homes::{give_home, take_from_home};
pub use inode_pool::InodePool;
pub use laws::{
    each_number_once_goes_home, no_move_loses_a_number, rising_list_of_unused_is_from_scratch,
    runs_cut_a_rising_list,
};
pub use queue::BlockQueue;
pub use runs::{FreeRun, Runs};
