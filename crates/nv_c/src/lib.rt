//! The files of a world for callers in C: an export for each call, on numbers and slices of bytes.
//!
//! A caller gives each export the place in which it holds a world, and no other call runs there meanwhile. Each export tells a
//! status: 0 where the call is done, the number of a fault where it is refused, and a number from 64 on for what only this
//! interface can get wrong. With another status than 0 nothing changes, except that the length is told that a buffer lacked.
#![tactic(auto)]

mod bytes;
mod cleaners;
mod held;
mod listed;
mod loose;
mod nodes;
mod numbers;
mod reports;
mod shown;
mod slot;
mod snapshots;
mod status;
mod texts;
mod told;
mod worlds;

pub use numbers::{NovaBlocks, NovaCleaned, NovaGeometry, NovaHandle, NovaNode};
pub use slot::{Hidden, Nova, Slot};
