//! The running service: a world whose parts lie behind locks. Sessions make calls on it from any number of threads.
#![tactic(auto)]

mod close;
mod judge;
mod open;
mod service;
mod serving;

pub use nv_sessions::{
    Blocks, Calls, Commits, Ledgers, LockedBook, LockedCell, LockedList, LockedParts, Receipt,
    Seen, Session, Source, SourceFault, View,
};
pub use service::Service;
pub use serving::{Acts, serve};
