//! The files of a world that one caller has to itself: each call is a method with a type of its own.
//!
//! No call runs beside another. So each method is told exactly what the plain world with numbers says.
#![tactic(auto)]

mod answers;
mod cleaners;
mod files;
pub mod laws;
mod nodes;
mod snapshots;
mod texts;

pub use answers::Stat;
pub use files::Files;
pub use nv_clean::Cleaned;
pub use nv_core::{
    Bytes, CommitNo, Epoch, Fault, Geometry, GeometryNumbers, Handle, Image, Ino, Kind, Mode, Name,
    NodeCopy, Path, Tree, TreeNode, root,
};
pub use nv_entry::NameList;
