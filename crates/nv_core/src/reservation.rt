//! What an actor has in its hand.

ghost use Rattle.std.specs.Prelude.{◌≡◌, ◌⊎◌, None, length};
ghost use Rattle.nv_calls.specs.Commit.{begun, stamp_of};
ghost use Rattle.nv_core.specs.Rooms.{hand_held};

use nv_alloc::Hand;
use nv_book::Book;
use nv_calls::{Commit, Ready};

/// What an actor has taken and not yet placed: its hand, and with it what its call appends once that is made ready, and
/// how far its commit has come.
///
/// It owns blocks, so it is no `Drop`.
pub(crate) enum Reservation {
    Hand(Hand),
    Ready(Ready),
    Commit(Commit),
}

impl Reservation {
    /// What is ready begins the book's latest commit.
    pub(crate) fn begin(self, book: &Book) -> (Reservation, ())
        requires { (ready : Ready) × (self ≡ Reservation.Ready ready) }
        ensures { (ready : Ready) → self ≡ Reservation.Ready ready
            → result.0 ≡ Reservation.Commit (begun (stamp_of book.now.state) ready) }
    {
        let Reservation::Ready(ready) = self else {
            unreachable!()
        };
        (Reservation::Commit(Commit::begin(ready, book)), ())
    }

    /// What is ready is given up before its commit: the hand stays.
    pub(crate) fn give_up(self, none: ()) -> (Reservation, ())
        requires { (ready : Ready) × (self ≡ Reservation.Ready ready) }
        ensures { (ready : Ready) → self ≡ Reservation.Ready ready
            → result.0 ≡ Reservation.Hand ready.hand }
    {
        let Reservation::Ready(ready) = self else {
            unreachable!()
        };
        (Reservation::Hand(ready.into_hand()), none)
    }

    /// A commit is over: what it left in the hand stays.
    pub(crate) fn leave(self, none: ()) -> (Reservation, ())
        requires there { (commit : Commit) × (self ≡ Reservation.Commit commit) }
        requires over { (commit : Commit) → self ≡ Reservation.Commit commit
            → ((commit.published ≡ 0) ⊎ (commit.retired ≡ length commit.plans))
            × (commit.journal ≡ None) }
        ensures { (commit : Commit) → self ≡ Reservation.Commit commit
            → result.0 ≡ Reservation.Hand commit.hand }
    {
        let Reservation::Commit(commit) = self else {
            unreachable!()
        };
        (Reservation::Hand(commit.into_hand()), none)
    }

    /// What is ready comes in the place of what is held, which is with its call.
    pub(crate) fn make_ready(self, ready: Ready) -> (Reservation, ())
        requires { (hand : Hand) × (self ≡ Reservation.Hand hand) }
        ensures { result.0 ≡ Reservation.Ready ready }
    {
        let Reservation::Hand(hand) = self else {
            unreachable!()
        };
        hand.dismantle();
        (Reservation::Ready(ready), ())
    }

    /// What is in the hand, wherever the call stands: for a machine that stops.
    pub(crate) fn into_hand(self) -> Hand
        ensures { result ≡ hand_held self }
    {
        match self {
            Reservation::Hand(hand) => hand,
            Reservation::Ready(ready) => ready.into_hand(),
            Reservation::Commit(commit) => commit.abandon(),
        }
    }

    /// Takes all apart: for a world that is let go.
    pub(crate) fn dismantle(self) {
        match self {
            Reservation::Hand(hand) => hand.dismantle(),
            Reservation::Ready(ready) => ready.dismantle(),
            Reservation::Commit(commit) => commit.dismantle(),
        }
    }
}
