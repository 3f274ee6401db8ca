//! The calls of a session, each over the function of its kind.

mod by_value;
mod changes;
mod cleaners;
mod snapshots;
mod views;
