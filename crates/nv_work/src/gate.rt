//! What is told round each call of a thread.

/// Is told before and after each call of a thread, by that thread. `line` counts the lines of the thread from 0. Cleaners
/// tell nothing. A gate may hold a thread back: a program has no need of one, a test may.
pub trait Gate {
    /// A thread comes to one of its lines.
    fn before(&self, thread: u64, line: u64);

    /// The call of this line was answered.
    fn after(&self, thread: u64, line: u64);
}

/// A gate that holds nobody back.
#[derive(Clone, Copy, Debug, Drop)]
pub struct OpenGate;

impl Gate for OpenGate {
    fn before(&self, _thread: u64, _line: u64) {}

    fn after(&self, _thread: u64, _line: u64) {}
}
