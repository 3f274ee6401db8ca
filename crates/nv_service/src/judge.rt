//! The judge of a service's parts: whether they make a world again.

ghost use Rattle.std.specs.Prelude.{◌≡◌, ◌⊎◌, IfErr, IfOk, None, OnOk, false};
ghost use Rattle.nv_base.specs.Memory.{out_of_memory};
ghost use Rattle.nv_core.specs.AtRest.{AreJudged, at_rest, parts_of};
ghost use Rattle.nv_core.specs.Worlds.{Shows};
ghost use Rattle.nv_service.specs.Closing.{IsDifference};
ghost use Rattle.nv_service.specs.Judging.{IsFound, after_refusal};
ghost use Rattle.nv_sessions.specs.UnlockedParts.{AreInPlace};

use nv_base::{Fault, MismatchPart};
use nv_core::{Parts, World};
use nv_sessions::{Blocks, Commits, UnlockedParts};
use std::alloc::Global;
use std::marker::Model;

/// The part that was found to differ last, if one ever was. No other module reaches the fields, and nobody can copy them: so
/// whoever says that a part differs has had parts judged.
#[derive(Drop)]
pub(crate) struct Judge {
    turn: bool,
    found: Option<MismatchPart>,
}

impl Model for Judge {
    ghost use Rattle.nv_service.specs.Judging.{JudgeValue};

    ghost Value = { JudgeValue };

    ghost view = { λ j. record { turn = j.turn; found = j.found } };
}

impl Judge {
    /// A judge who has found nothing.
    pub(crate) fn new() -> Judge
        ensures { result ≡ record { turn = false; found = None } }
    {
        Judge {
            turn: false,
            found: None,
        }
    }

    /// The part that was found to differ last, if one ever was.
    pub(crate) fn found(&self) -> Option<MismatchPart>
        ensures { result ≡ self.now.found }
    {
        self.found
    }

    /// The world of these parts, where each cell came out of its own slot's lock: else the lists differ.
    ///
    /// `Mismatch` with the first part that differs, or `OutOfMemory`; the parts come back.
    pub(crate) fn world_of<C: Commits, B: Blocks>(
        &mut self,
        alloc: Global,
        parts: Parts,
        rests: &UnlockedParts<C, B>,
    ) -> Result<World, (Fault, Parts)>
        ensures shows { IfOk result (λ world. Shows world (at_rest parts)) }
        ensures parts { IfOk result (λ world. parts_of world.shared ≡ parts) }
        // Parts at rest, with each cell from its own slot, make a world.
        ensures judged { OnOk result (AreJudged parts) }
        ensures placed { OnOk result (AreInPlace rests.now.cells.items) }
        // Others are refused by the first part that differs.
        ensures err { IfErr result (λ refused.
            (refused.0 ≡ out_of_memory) ⊎ IsDifference parts rests.now.cells.items refused.0) }
        ensures found { IfErr result (λ refused. IsFound self.old self.new refused.0) }
        ensures same { IfErr result (λ refused. refused.1 ≡ parts) }
    {
        match in_place(alloc, parts, rests) {
            Ok(world) => Ok(world),
            Err((fault, parts)) => {
                self.note(fault);
                Err((fault, parts))
            }
        }
    }

    /// Notes why parts were refused.
    fn note(&mut self, fault: Fault)
        ensures { self.new ≡ after_refusal fault self.old }
    {
        if let Fault::Mismatch(part) = fault {
            self.turn = !self.turn;
            self.found = Some(part);
        }
    }
}

/// The world of these parts, where they are at rest and each cell came out of its own slot's lock.
fn in_place<C: Commits, B: Blocks>(
    alloc: Global,
    parts: Parts,
    rests: &UnlockedParts<C, B>,
) -> Result<World, (Fault, Parts)>
    ensures shows { IfOk result (λ world. Shows world (at_rest parts)) }
    ensures parts { IfOk result (λ world. parts_of world.shared ≡ parts) }
    ensures judged { OnOk result (AreJudged parts) }
    ensures placed { OnOk result (AreInPlace rests.now.cells.items) }
    ensures err { IfErr result (λ refused.
        (refused.0 ≡ out_of_memory) ⊎ IsDifference parts rests.now.cells.items refused.0) }
    ensures same { IfErr result (λ refused. refused.1 ≡ parts) }
{
    let world = match World::from_parts(alloc, parts) {
        Ok(world) => world,
        Err(refused) => return Err(refused),
    };
    if rests.are_in_place() {
        return Ok(world);
    }
    match world.into_parts() {
        Ok(parts) => Err((Fault::Mismatch(MismatchPart::Lists), parts)),
        Err(_) => unreachable!(),
    }
}
