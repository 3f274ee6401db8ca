//! What the tests of the libraries start from: geometries, ids and handles by their numbers, and logs by
//! lines.
//!
//! No library stands on this crate but tests alone. What may end a test's process stands in the crates of tests,
//! since a library may not.
#![tactic(auto)]

mod ids;
pub mod logs;
mod memory;

pub use ids::{Row, below, crosses_threads, geometry, handle, handle_of, id, next_number, numbers};
pub use memory::{want_of_memory, wants_memory};
