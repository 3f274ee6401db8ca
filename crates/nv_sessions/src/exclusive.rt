//! A value that a shared reference does not show.

ghost use Rattle.std.specs.Prelude.{◌≡◌};
ghost use Rattle.std.specs.Borrow.{ftrue};

use std::marker::Model;

/// A value that nobody reaches by a shared reference. So threads may share one where they may send the value.
pub(crate) struct Exclusive<T> {
    value: T,
}

impl<T> Model for Exclusive<T> {
    // Nothing beside the value.
    ghost also_owns = { λ _. ftrue };
}

impl<T> Exclusive<T> {
    /// Of this value.
    pub(crate) fn new(value: T) -> Exclusive<T>
        ensures { result.value ≡ value }
    {
        Exclusive { value }
    }

    /// The value.
    pub(crate) fn into_inner(self) -> T
        ensures { result ≡ self.value }
    {
        let Exclusive { value } = self;
        value
    }
}

impl<T: Drop> Drop for Exclusive<T> {
    fn drop(self) {
        drop(self.into_inner());
    }
}

unsafe impl<T: Send> Send for Exclusive<T> {}

unsafe impl<T: Send> Sync for Exclusive<T> {}
