//! What a call has in its hand before and in its commit, for those who report it.

ghost use Rattle.std.specs.Prelude.{◌≡◌, ◌<◌, length};
ghost use Rattle.nv_calls.specs.Ready.{plan_at};

use crate::{Commit, Ready};
use nv_alloc::Hand;
use nv_cell::KilledPart;

impl Ready {
    /// What the call holds.
    pub fn hand(&self) -> &Hand
        ensures { result.now ≡ self.now.hand }
    {
        &self.hand
    }
}

impl Commit {
    /// What the call still holds: what its cells took from the hand is theirs.
    pub fn hand(&self) -> &Hand
        ensures { result.now ≡ self.now.hand }
    {
        &self.hand
    }

    /// Of how many cells the entries are appended.
    pub fn appended(&self) -> usize
        ensures { result ≡ self.now.appended }
    {
        self.appended
    }

    /// Of how many cells the entries are published.
    pub fn published(&self) -> usize
        ensures { result ≡ self.now.published }
    {
        self.published
    }

    /// Of how many what their publish killed is retired.
    pub fn retired(&self) -> usize
        ensures { result ≡ self.now.retired }
    {
        self.retired
    }

    /// The parts that the publish of a plan's entries killed, until they are retired.
    pub fn killed_of(&self, j: usize) -> &[KilledPart]
        requires { j < length self.now.plans }
        // The parts that a publish killed and that are not yet retired are told.
        ensures { result.now ≡ (plan_at self.now.plans j).killed }
    {
        &self.plans[j].killed
    }
}
