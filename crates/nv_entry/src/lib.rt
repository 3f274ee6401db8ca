//! What the log of an inode says.
//!
//! A log is a list of entries in append order. An entry sets keys of its inode (its kind, mode and size, a
//! name, a page) to a value or to absent; a key's value is what the last entry that covers it sets. From
//! that follow the index of a file, the names of a directory, which values a snapshot holds, the counts
//! of a log page, the node at an epoch, and which entries a cleaner may remove. The definitions stand in
//! `specs/`; the functions here compute them by plain scans.
#![tactic(auto)]

mod clean;
mod counts;
mod held;
mod index;
mod item;
mod key;
pub mod key_laws;
pub mod laws;
mod names;
mod node;
mod part;
mod part_ref;
mod retention;
pub mod stored;
mod tree;
mod value;
mod walk;

pub use clean::{hides, is_droppable};
pub use counts::{live, valid};
pub use held::{Pair, is_kept};
pub use index::PageSource;
pub use item::{BlockRun, Entry, Item};
pub use key::{Datum, Key, Setting};
pub use names::{BoundName, NameList, names_when};
pub use node::{BlockBytes, NodeCopy, file_bytes_when, node_when, size_when};
pub use part::{Part, PartId, Parts};
pub use part_ref::{PartRef, current_part};
pub use retention::Retention;
pub use tree::{Path, Tree, TreeNode};
pub use value::{When, first_cover, value_when};
pub use walk::{fast_keeps, thorough_keeps};
