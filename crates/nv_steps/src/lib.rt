//! Steps of calls, each on the parts that it is lent: the machine's own turns, wherever the other parts are. A world lends its
//! fields, a service what lies behind its locks.
#![tactic(auto)]

mod cells;
pub mod laws;
mod lists;
mod picks;
mod pins;
mod planning;
mod pool;
mod reading;
mod snapshots;

pub use cells::{compact, release, unlink};
pub use lists::{LeftInHand, Taken, give, left_in_hand, take};
pub use picks::{Picked, pick};
pub use pins::{pin, unpin};
pub use planning::{Manner, Planned, plan_cleaning};
pub use pool::{return_number, take_number};
pub use reading::{look, show, visit};
pub use snapshots::{drop_snapshot, make_snapshot};
