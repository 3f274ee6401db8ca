//! The file calls, each as what it is: when it is refused, what it appends and changes, what it is answered.
//!
//! Contracts speak of a plain world: nodes by handle, with their bytes or names. A call is cut by the step
//! that decides: its refusal is a function of the nodes at the check, its effect a list of changes at the
//! commit. Its plan is the items that it appends, inode by inode; a law says that a commit of any plan that
//! fits an effect has that effect, and another that each call's plan fits its own.
#![tactic(auto)]

mod allocation;
mod answer;
mod append;
mod call;
pub mod calls;
mod cells;
mod check_end;
mod commit;
mod fill_pages;
mod filling;
mod held_nodes;
mod in_hand;
mod journal;
pub mod laws;
mod lent;
mod locks;
mod log_pages;
mod looked;
mod looks;
mod names;
mod next_commit;
mod nodes;
mod plan;
mod planning;
mod prepare;
mod progress;
mod ready;
mod ready_source;
mod receipt;
mod refusal;
mod retire;
mod room;
pub mod rule_laws;
mod runs;
mod slot_cells;
mod slots;
mod snapshot_or_cleaner_call;
mod source;
mod stamp;
mod steps;
mod update;
mod view;
mod wants;
mod whole;

pub use allocation::Allocation;
pub use answer::Answer;
pub use call::Call;
pub use cells::Cells;
pub use check_end::{CheckEnd, ends_at_check};
pub use commit::Commit;
pub use fill_pages::fill;
pub use held_nodes::HeldNodes;
pub use lent::LastCell;
pub use locks::slots_of;
pub use log_pages::{MORE_PAGES, pages_wanted};
pub use looked::{LookupResult, found, is_as_looked, look, look_all};
pub use looks::{directory, look_at, look_count};
pub use next_commit::{is_closed, takes_commit};
pub use nodes::Nodes;
pub use plan::{InodePlan, InodePlans};
pub use planning::{is_nothing, plan_items};
pub use prepare::ready_on;
pub use progress::CommitStep;
pub use ready::{CellCommit, Ready};
pub use ready_source::ready_filled;
pub use receipt::Receipt;
pub use refusal::{check_early, check_late};
pub use retire::erase_gone;
pub use room::make_room;
pub use runs::{RunList, runs_of};
pub use slot_cells::SlotCells;
pub use slots::LockedSlots;
pub use snapshot_or_cleaner_call::SnapshotOrCleanerCall;
pub use source::{Source, SourceFault};
pub use stamp::Stamp;
pub use steps::{append_on, close_on, open_on, publish_on, retire_on};
pub use update::Update;
pub use view::{View, list_on, look_on, lookup_on, read_on, stat_on, view_on};
pub use whole::commit_on;
