//! What is wrong with the line that ended a script, told to those who wrote it, and how often calls were refused.
//!
//! A fault has a kind and a line. `hint_line` tells of both in one line for standard error: where it is, what it reads, and
//! what to write in its place. `KeptReader` keeps the lines that a player has read last, so that the faulty one is there.
//! `TallyWriter` counts the refusals among the answers that pass it. `help_text` shows how all commands and calls are written.
#![tactic(auto)]

mod flaw;
mod form;
mod help;
mod hint;
mod kept_reader;
mod nearest;
mod place;
mod recent;
mod shown;
mod table;
mod tally;
mod unread;

pub use help::{help_of, help_text};
pub use hint::By;
pub use kept_reader::KeptReader;
pub use place::hint_line;
pub use recent::Recent;
pub use tally::{Tally, TallyWriter, push_summary};
