//! What the tests of calls, of the world and of the service start from: calls by their words, answers that are wanted,
//! rows of calls that take memory, and sources of texts.
//!
//! No library stands on this crate but tests alone. What may end a test's process stands in the crates of tests,
//! since a library may not.
#![tactic(auto)]

pub mod growths;
pub mod sources;
pub mod words;
