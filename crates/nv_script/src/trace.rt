//! The forms in which scripts are told.

/// Whether a line for each event stands before the answer to a line, and in which form.
#[derive(Clone, Copy, Debug, PartialEq, Eq, Drop)]
pub enum Trace {
    /// Answers alone are written.
    Off,
    /// Lines of words come first.
    Text,
    /// Each line is an object, and so is each line of an answer.
    Json,
}
