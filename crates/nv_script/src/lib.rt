//! Scripts of calls: bytes in, texts out.
//!
//! A script is lines of words. Each line is one command: `format` makes a world, and the others make calls of
//! its actors or report on it. `play` writes the text of what each line is answered. Who plays scripts otherwise takes
//! their lines by `player`, their commands by `command`, and the texts of answers by `text`.
#![tactic(auto)]

pub mod act;
mod answers;
mod asked;
mod call;
mod called;
pub mod command;
mod counted;
mod echo;
pub mod fault;
pub mod feed;
mod field;
mod format;
pub mod look;
pub mod outbox;
mod outcome;
pub mod player;
mod script;
mod send;
mod teller;
pub mod text;
mod trace;
mod trees;
pub mod word;

pub use answers::Answers;
pub use asked::Asked;
pub use called::call_text;
pub use counted::{CountedRead, CountedWrite, ReadCounter, ReadFailed, WriteCounter, WriteFailed};
pub use echo::{Echo, Telling, push_echo_by};
pub use outcome::{Outcome, exit_code, fault_line};
pub use script::{
    echo_counted_and_leave, play, play_and_leave, play_counted, play_counted_and_leave,
    play_echoed_and_leave,
};
pub use teller::{CommandTeller, LineTeller};
pub use text::fault_text;
pub use trace::Trace;
