//! Whether the book has a deferred record, told beside its lock.

ghost use Rattle.std.specs.Prelude.{◌≡◌};
ghost use Rattle.nv_sessions.specs.Deferred.{has_some};

use nv_book::Book;
use std::sync::atomic::{AtomicBool, Ordering};

/// Whether the book has a deferred record. Who holds the commit lock sets it before he gives that up. So a thread that finds
/// it lowered could have found the book with nothing deferred, and takes no lock for that.
#[derive(Drop)]
pub(crate) struct DeferredFlag {
    raised: AtomicBool,
}

impl DeferredFlag {
    /// A flag that is raised or lowered.
    pub(crate) fn new(raised: bool) -> DeferredFlag {
        DeferredFlag {
            raised: AtomicBool::new(raised),
        }
    }

    /// Whether it is raised.
    pub(crate) fn is_raised(&self) -> bool {
        self.raised.load(Ordering::SeqCst)
    }

    /// Raises or lowers it. `flagged` is how it was left, so that nothing is written where it stays.
    pub(crate) fn set(&self, flagged: &mut bool, raised: bool)
        ensures { flagged.new ≡ raised }
    {
        if *flagged != raised {
            self.raised.store(raised, Ordering::SeqCst);
            *flagged = raised;
        }
    }
}

/// Whether a book has a deferred record.
pub(crate) fn has_deferred(book: &Book) -> bool
    ensures { result ≡ has_some book.now.state.deferred }
{
    book.deferred().iter().next().is_some()
}
