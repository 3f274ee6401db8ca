//! A world behind locks, with the judge of whether its parts make a world again.

ghost use Rattle.std.specs.Prelude.{◌≡◌, ◌⊎◌, ◌<◌, ◌↔◌, IfErr, IfOk, OnErr, OnOk, map};
ghost use Rattle.std.specs.List.{range_with_len};
ghost use Rattle.nv_base.specs.Memory.{out_of_memory};
ghost use Rattle.nv_base.specs.Refusals.{IsRefusedBy};
ghost use Rattle.nv_base.specs.declared.fault.Fault.TheVariants.{BadGeometry, SeatsOut};
ghost use Rattle.nv_base.specs.declared.fault.GeometryField.TheVariants.{Seats};
ghost use Rattle.nv_base.specs.declared.limits.TheConstants.{ACTORS};
ghost use Rattle.nv_sessions.specs.Seats.{new_session};

use crate::judge::Judge;
use nv_base::{Fault, Geometry, MismatchPart};
use nv_sessions::{Blocks, Commits, LockedParts, Session};
use std::alloc::Global;
use std::marker::Model;
use std::ops::Deref;

/// A world whose parts lie behind locks. Sessions call its [`LockedParts`], whose methods it has.
#[derive(Drop)]
pub struct Service<C: Commits, B: Blocks> {
    pub(crate) parts: LockedParts<C, B>,
    pub(crate) judge: Judge,
}

impl<C: Commits, B: Blocks> Model for Service<C, B> {
    ghost use Rattle.nv_service.specs.Services.{ServiceValue};

    ghost Value = { ServiceValue };

    ghost view = { λ s. record {
      geometry = s.parts.geometry;
      seating = record { given = s.parts.seating.given };
      blocks = s.parts.total.amount;
      judge = s.judge;
    } };
}

impl<C: Commits, B: Blocks> Deref for Service<C, B> {
    type Target = LockedParts<C, B>;

    ghost deref_gives = { λ s p. p.geometry ≡ s.geometry };

    fn deref(&self) -> &LockedParts<C, B>
        // They are the parts of the service's device.
        ensures { result.now.geometry ≡ self.now.geometry }
    {
        &self.parts
    }
}

impl<C: Commits, B: Blocks> Service<C, B> {
    /// The numbers of the device.
    pub fn geometry(&self) -> &Geometry
        ensures { result.now ≡ self.now.geometry }
    {
        self.parts.geometry()
    }

    /// Gives out so many sessions, numbered from 0 on, that have seen and committed nothing and have empty hands: once
    /// for each service.
    ///
    /// `SeatsOut` where sessions were given out already; `BadGeometry` where there are none or more than 64 to give out;
    /// `OutOfMemory` where room was refused. Nothing has changed then.
    pub fn seats(&mut self, alloc: Global, count: u64) -> Result<Vec<Session<C, B>>, Fault>
        // As many sessions are given out, numbered from 0, which have seen and committed nothing.
        ensures sessions { IfOk result (λ sessions.
            sessions.items ≡ map new_session (range_with_len 0 count)) }
        ensures given { OnOk result (self.new.seating.given ≡ count) }
        // They are given out once, 1 to 64 of them, and else nothing changes.
        ensures out { IsRefusedBy result SeatsOut ↔ (0 < self.old.seating.given) }
        ensures bad { IsRefusedBy result (BadGeometry Seats)
            ↔ ((self.old.seating.given ≡ 0) × ((count ≡ 0) ⊎ (ACTORS < count))) }
        ensures err { IfErr result (λ fault.
            (fault ≡ SeatsOut) ⊎ (fault ≡ BadGeometry Seats) ⊎ (fault ≡ out_of_memory)) }
        ensures geometry { self.new.geometry ≡ self.old.geometry }
        ensures rest { (self.new.blocks ≡ self.old.blocks) × (self.new.judge ≡ self.old.judge) }
        ensures same { OnErr result (self.new.seating.given ≡ self.old.seating.given) }
    {
        self.parts.seats(alloc, count)
    }

    /// The part that was found to differ when [`Service::close`] was last refused by a `Mismatch`, if it ever was.
    pub fn found(&self) -> Option<MismatchPart>
        // The part is told that a `close` found to differ last.
        ensures { result ≡ self.now.judge.found }
    {
        self.judge.found()
    }
}
