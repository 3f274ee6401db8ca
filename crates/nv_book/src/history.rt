//! The latest events.

ghost use Rattle.std.specs.Prelude.{◌≡◌, ℕ, ◌≤◌, [], ◌∷◌, ◌++◌, length, slice_get, IfOk, IsTrue, ◌↔◌};
ghost use Rattle.nv_base.specs.Refusals.{FailsOnly};
ghost use Rattle.nv_book.specs.History.{State, IsHistory, IsNext, after, noted, told, undone};
ghost use Rattle.nv_base.specs.Memory.{out_of_memory};

use crate::{Base, Event};
use circular_buffer::HeapCircularBuffer;
use nv_base::Fault;
use std::alloc::Global;
use std::marker::Model;

/// How many events a history keeps one by one.
pub const LATEST: usize = 256;

/// What happened to a book last, oldest first. Contracts see the list.
///
/// The base, which stands for all events before these, is not kept: it is the book's present state with these
/// events undone. So the oldest goes into it at no cost.
#[derive(Debug, Drop)]
pub struct History {
    latest: HeapCircularBuffer<Event>,
}

impl Model for History {
    ghost use Rattle.std.specs.Prelude.{◌≡◌, ◌≤◌, List, length};
    ghost use Rattle.nv_book.specs.declared.event.Event.{Event};
    ghost use Rattle.nv_book.specs.declared.history.TheConstants.{LATEST};

    ghost Value = { List Event };

    ghost view = { λ h. h.latest.items };

    // It has at most 256 events.
    ghost invariant = { λ h. (h.latest.capacity ≡ LATEST) × (length h.latest.items ≤ LATEST) };
}

impl History {
    /// No events.
    ///
    /// The only error is `OutOfMemory`.
    pub(crate) fn new(alloc: Global) -> Result<History, Fault>
        ensures ok { IfOk result (λ h. h ≡ []) }
        ensures err { FailsOnly out_of_memory result }
    {
        Ok(History {
            latest: HeapCircularBuffer::with_capacity(alloc, LATEST)?,
        })
    }

    /// Notes an event, in constant time. Where [`LATEST`] events stand already, the oldest goes into the base.
    pub(crate) fn note(&mut self, event: Event)
        ensures { (most : ℕ) (now : State) → IsHistory most now self.old → IsNext most now event →
            IsHistory most (after now event) self.new
            × (told (after now event) self.new ≡ noted LATEST (told now self.old) event) }
    {
        let _oldest = self.latest.push_back(event);
    }

    /// What the events before the latest led to, by what all events led to. It takes time by the events that are
    /// kept, and for each making and drop among them by the number of snapshots.
    ///
    /// The only error is `OutOfMemory`.
    pub(crate) fn base(&self, now: Base) -> Result<Base, Fault>
        ensures ok { IfOk result (λ base. base ≡ undone now self.now) }
        ensures err { FailsOnly out_of_memory result }
    {
        let mut base = now;
        let mut left = self.latest.len();
        while left > 0 {
            left -= 1;
            let Some(event) = self.latest.get(left) else {
                unreachable!();
            };
            base.undo(*event)?;
        }
        Ok(base)
    }

    /// How many events stand after the base.
    pub fn len(&self) -> usize
        ensures value { result ≡ length self.now }
        ensures fits { result ≤ LATEST }
    {
        self.latest.len()
    }

    /// Whether no event stands after the base.
    pub fn is_empty(&self) -> bool
        // Whether a history has an event is told.
        ensures { IsTrue result ↔ (self.now ≡ []) }
    {
        self.len() == 0
    }

    /// The event at this place after the base, the oldest at 0.
    pub fn event(&self, place: usize) -> Option<Event>
        // A history has at most the latest 256 events, and each is told.
        ensures { result ≡ slice_get self.now place }
    {
        self.latest.get(place).copied()
    }
}
