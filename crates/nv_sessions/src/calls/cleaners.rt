//! The cleaners.

ghost use Rattle.std.specs.Prelude.{◌≡◌, ◌≤◌, ℕ, Bool, IfErr, IfOk, max, min};
ghost use Rattle.nv_base.specs.declared.limits.TheConstants.{DRAIN};
ghost use Rattle.nv_sessions.specs.Ending.{cleaner_of};
ghost use Rattle.nv_sessions.specs.Refusing.{MayRefuseSnapshotOrCleaner};
ghost use Rattle.nv_sessions.specs.RunCalls.{cleaning, told_as, draining};
ghost use Rattle.nv_sessions.specs.SessionRuns.{IsGivingRun};
ghost use Rattle.nv_sessions.specs.Sessions.{IsGivenBack, with_held};

use crate::cleaners::clean_log;
use crate::drain::drain_deferred;
use crate::ending::{empty_hand, give_back};
use crate::locked_parts::LockedParts;
use crate::names::{Blocks, Commits};
use crate::seen::Seen;
use crate::session::Session;
use nv_base::{Fault, Ino, limits};
use nv_calls::{Answer, SnapshotOrCleanerCall};
use nv_steps::Manner;
use std::sync::Wait;

impl<C: Commits, B: Blocks> Session<C, B> {
    /// Unlinks whole log pages of an inode that nothing needs, and answers how many entries and pages the log lost.
    /// `Stale`; `OutOfMemory` where room was refused.
    pub fn fast<R: Wait>(
        &mut self,
        rt: &R,
        service: &LockedParts<C, B>,
        ino: Ino,
    ) -> Result<Seen, Fault>
        // A cleaner is a run of the machine's turns, from its start to its answer or refusal; or a test breaks it off, or
        // its hand keeps some of what it gives back.
        ensures run { IsGivingRun service.now.geometry.numbers self.old.number
            (cleaning service.now.geometry.numbers (SnapshotOrCleanerCall.Fast ino))
            self.new.held (told_as result) }
        // Cleaners are answered by their kind, and leave what the session has seen.
        ensures answer { IfOk result (λ seen. (thorough : Bool) × (entries pages : ℕ)
            × (seen ≡ Seen.Other (Answer.Cleaned thorough entries pages))) }
        ensures err { IfErr result (MayRefuseSnapshotOrCleaner (SnapshotOrCleanerCall.Fast ino)) }
        ensures same { self.new ≡ with_held self.new.held self.old }
        // The hand is empty afterwards, except where a list or the pool refused what is left.
        ensures held { IsGivenBack self.new.held }
    {
        self.clean(rt, service, Manner::Fast, ino)
    }

    /// Moves the entries of an inode's log that something needs to as few pages as they fill, which it takes before it
    /// gives any back, and answers how many entries and pages the log lost. `Stale`, `NoSpace`; `OutOfMemory` where room
    /// was refused.
    pub fn thorough<R: Wait>(
        &mut self,
        rt: &R,
        service: &LockedParts<C, B>,
        ino: Ino,
    ) -> Result<Seen, Fault>
        ensures run { IsGivingRun service.now.geometry.numbers self.old.number
            (cleaning service.now.geometry.numbers (SnapshotOrCleanerCall.Thorough ino))
            self.new.held (told_as result) }
        ensures answer { IfOk result (λ seen. (thorough : Bool) × (entries pages : ℕ)
            × (seen ≡ Seen.Other (Answer.Cleaned thorough entries pages))) }
        ensures err { IfErr result
            (MayRefuseSnapshotOrCleaner (SnapshotOrCleanerCall.Thorough ino)) }
        ensures same { self.new ≡ with_held self.new.held self.old }
        ensures held { IsGivenBack self.new.held }
    {
        self.clean(rt, service, Manner::Thorough, ino)
    }

    /// Does as [`thorough`](Session::thorough) where less than half of the entries would stay, and else as
    /// [`fast`](Session::fast).
    pub fn auto<R: Wait>(
        &mut self,
        rt: &R,
        service: &LockedParts<C, B>,
        ino: Ino,
    ) -> Result<Seen, Fault>
        ensures run { IsGivingRun service.now.geometry.numbers self.old.number
            (cleaning service.now.geometry.numbers (SnapshotOrCleanerCall.Auto ino))
            self.new.held (told_as result) }
        ensures answer { IfOk result (λ seen. (thorough : Bool) × (entries pages : ℕ)
            × (seen ≡ Seen.Other (Answer.Cleaned thorough entries pages))) }
        ensures err { IfErr result (MayRefuseSnapshotOrCleaner (SnapshotOrCleanerCall.Auto ino)) }
        ensures same { self.new ≡ with_held self.new.held self.old }
        ensures held { IsGivenBack self.new.held }
    {
        self.clean(rt, service, Manner::Auto, ino)
    }

    /// Cleans the log of an inode, and gives back what it has lost. A number without a slot is `Stale` at once.
    fn clean<R: Wait>(
        &mut self,
        rt: &R,
        service: &LockedParts<C, B>,
        manner: Manner,
        ino: Ino,
    ) -> Result<Seen, Fault>
        ensures run { IsGivingRun service.now.geometry.numbers self.old.number
            (cleaning service.now.geometry.numbers (cleaner_of manner ino)) self.new.held
            (told_as result) }
        ensures answer { IfOk result (λ seen. (thorough : Bool) × (entries pages : ℕ)
            × (seen ≡ Seen.Other (Answer.Cleaned thorough entries pages))) }
        ensures err { IfErr result (MayRefuseSnapshotOrCleaner (cleaner_of manner ino)) }
        ensures same { self.new ≡ with_held self.new.held self.old }
        ensures held { IsGivenBack self.new.held }
    {
        let number = self.seat.number;
        let mine = &mut self.seat.blocks;
        let giving = &mut self.seat.giving;
        empty_hand(rt, service, &mut self.hand, mine, giving)?;
        if ino.number() >= service.geometry.numbers.inodes {
            return Err(Fault::Stale);
        }
        let cleaned = clean_log(rt, service, number, &mut self.hand, mine, manner, ino);
        give_back(rt, service, &mut self.hand, mine, giving)?;
        let cleaned = cleaned?;
        Ok(Seen::Other(Answer::Cleaned {
            thorough: cleaned.thorough,
            entries: cleaned.entries,
            pages: cleaned.pages,
        }))
    }

    /// Releases the first deferred records, at most so many, and answers how many: a number outside 1 to
    /// [`limits::DRAIN`] counts as the nearest of these. `OutOfMemory` where room for a block was refused, before the first
    /// record. A part that does not fit ends it by `Mismatch`, also behind records that it has released.
    pub fn drain<R: Wait>(
        &mut self,
        rt: &R,
        service: &LockedParts<C, B>,
        number: u64,
    ) -> Result<Seen, Fault>
        // A drain is a run of the machine's turns; or a test breaks it off, or its hand keeps some of what it gives back.
        ensures run { IsGivingRun service.now.geometry.numbers self.old.number (draining number)
            self.new.held (told_as result) }
        // It releases no more than it may.
        ensures answer { IfOk result (λ seen. (n : ℕ) × (n ≤ max 1 (min number DRAIN))
            × (seen ≡ Seen.Other (Answer.Count n))) }
        ensures err { IfErr result
            (MayRefuseSnapshotOrCleaner (SnapshotOrCleanerCall.Drain number)) }
        ensures same { self.new ≡ with_held self.new.held self.old }
        ensures held { IsGivenBack self.new.held }
    {
        let mine = &mut self.seat.blocks;
        empty_hand(rt, service, &mut self.hand, mine, &mut self.seat.giving)?;
        let most = limits::most_drained(number);
        let giving = &mut self.seat.giving;
        let answer = drain_deferred(rt, service, &mut self.hand, mine, giving, most)?;
        Ok(Seen::Other(answer))
    }
}
