//! What a world and a service have in common: the parts of which a world is made, and a text in memory as the source of a
//! write.
#![tactic(auto)]

mod cells;
mod parts;
mod text;

pub use cells::dismantle_cells;
pub use parts::Parts;
pub use text::Text;
