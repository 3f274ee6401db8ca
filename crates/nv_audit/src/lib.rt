//! What judges a device as it stands between two steps: each part against one plain scan of all logs and of the
//! snapshot list.
//!
//! The scans share no code with what they judge, except for the map of pages, of which they make one anew. They ask
//! the functions of `nv_entry`, which say what a log means, and read the entries of the logs alone; of the parts that
//! they judge they take no more than what these show.
//!
//! An [`Image`] is what stands of a device that has stopped. [`judge`] tells the first of eight faults that it has.
#![tactic(auto)]

mod at_rest;
mod audited;
mod blocks;
mod counts;
mod deaths;
mod device_parts;
mod faults;
mod first_covers;
mod held_shape;
mod histories;
mod image;
mod index;
mod kept_parts;
pub mod laws;
mod lists;
mod log_names;
mod log_shape;
mod logged;
mod mounted;
mod names;
mod nodes;
mod owed;
mod part_list;
mod parts;
mod pending;
mod pool;
mod records;
mod records_anew;
mod resting;
mod retained;
mod scanned_pages;
mod slot_records;
mod sound;
mod tree;
mod whole;

pub use at_rest::{has_none_killed, is_at_rest, is_up_to};
pub use audited::Audited;
pub use blocks::is_each_block_once;
pub use counts::are_counted;
pub use device_parts::{are_lists_of, are_slots_of, is_slot_of};
pub use faults::{all_notes, has, judge};
pub use image::{DataBlocks, Image, SlotImage};
pub use index::{are_pages_of, is_part_of};
pub use kept_parts::are_records_of;
pub use lists::are_free;
pub use log_shape::{
    are_lawful_from, are_lawful_from_some, are_no_later, is_gone_last, is_left_shaped, is_shaped,
};
pub use logged::Logged;
pub use mounted::{is_over, put_notes};
pub use names::are_names_of;
pub use nodes::form_trees;
pub use part_list::InodePart;
pub use pending::{InHands, living};
pub use pool::is_pool_of;
pub use records::are_recorded;
pub use records_anew::push_records_anew;
pub use resting::rest_differs;
pub use slot_records::are_all_records_of;
pub use sound::{are_blocks_apart, ends_at_size, ends_at_tail};
pub use tree::{NamedNode, form_a_tree};
pub use whole::audit;
