//! The machine of atomic steps, told by definitions and laws alone.
#![tactic(auto)]

pub mod book_laws;
pub mod call_laws;
pub mod cell_laws;
pub mod cleaner_answers;
pub mod cleaning_laws;
pub mod erasing_laws;
pub mod hand_laws;
pub mod laws;
pub mod plain_laws;
pub mod refusal_laws;
pub mod row_laws;
pub mod serial_laws;
pub mod snapshot_laws;
pub mod start_laws;
pub mod step_laws;
pub mod tree_laws;
