//! The parts of a world behind locks: each inode's cell, the book, each CPU's free list and the pool of inode numbers
//! behind one of its own. Sessions make calls on them from any number of threads.
//!
//! Beside each part lies what a clause can say across threads: the share of its blocks, the ledger of commits, and the
//! pass that owns an inode at its version. Nobody sees an older cell than he has seen.
#![tactic(auto)]

mod asking;
mod beside;
mod book;
mod callers;
mod calls;
mod cell;
mod cell_list;
mod cell_locks;
mod change;
mod checking;
mod clean;
mod cleaners;
mod commit;
mod commit_lock;
mod deferred_flag;
mod drain;
mod ending;
mod exclusive;
mod first_locks;
mod fresh;
mod fresh_pages;
mod gather;
mod giving_back;
mod guards;
mod held;
mod list;
mod lock_again;
mod locked_parts;
mod looks;
mod meetings;
mod names;
mod no_text;
mod opening;
mod part_room;
mod passes;
mod rounds;
mod seat;
mod seats;
mod seen;
mod seen_versions;
mod sends;
mod session;
mod snapshots;
mod taking;
mod unlocked;
mod unlocked_parts;
mod view_guards;
mod visits;

pub use book::LockedBook;
pub use callers::{Calls, Seated};
pub use cell::LockedCell;
pub use first_locks::LockRoom;
pub use list::LockedList;
pub use locked_parts::LockedParts;
pub use names::{Blocks, Commits, Ledgers};
pub use nv_calls::{Receipt, Source, SourceFault, View};
pub use part_room::PartRoom;
pub use seen::Seen;
pub use session::Session;
pub use unlocked_parts::UnlockedParts;
