//! The names of a directory: distinct lawful names, each with its handle and the id of the log entry that
//! bound it, found by name without a scan.
//!
//! Later bindings have later ids, so the order of the names is the order of these ids:
//! [`NameIndex::list`] puts the names in it, and binding and unbinding keep none.
#![tactic(auto)]

mod binding;
mod bindings;
mod bound_names;
mod laws;
mod name_index;

pub use binding::Binding;
pub use bindings::Bindings;
pub use laws::names_in_order_are_told_by_look_ups;
pub use name_index::NameIndex;
