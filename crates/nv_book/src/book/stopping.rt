//! What a machine that stops takes from its book.

ghost use Rattle.std.specs.Prelude.{◌≡◌};

use super::Book;
use nv_journal::Journal;

impl Book {
    /// The journals of all CPUs.
    pub fn journals(&self) -> &[Journal]
        // The journals of all CPUs are told.
        ensures { result.now ≡ self.now.state.journals }
    {
        self.journals.as_slice()
    }

    /// The journals alone: for a machine that stops. Takes no memory.
    pub fn into_journals(self) -> Vec<Journal>
        // The journals of all CPUs are handed out, without memory.
        ensures { result.items ≡ self.state.journals }
    {
        let Book {
            alloc: _,
            snaps: _,
            commit: _,
            store: _,
            journals,
            history: _,
        } = self;
        journals
    }
}
