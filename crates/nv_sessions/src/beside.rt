//! What lies beside a cell in its place, where no shared reference reaches it.

ghost use Rattle.std.specs.Prelude.{◌≡◌, ◌<◌};
ghost use Rattle.nv_sessions.specs.Beside.{beside_of};

use crate::exclusive::Exclusive;
use crate::names::{Blocks, Commits};
use crate::passes::Owner;
use std::mem;
use std::sync::ledger::Share;

/// The share of a cell's blocks, and the pass that owns the inode at a version.
#[derive(Drop)]
pub(crate) struct Beside<C: Commits, B: Blocks> {
    pub(crate) blocks: Share<B>,
    pub(crate) owner: Owner<C>,
}

impl<C: Commits, B: Blocks> Beside<C, B> {
    /// In a place.
    pub(crate) fn hidden(self) -> Option<Exclusive<Beside<C, B>>>
        ensures parts { (beside_of result).parts ≡ self.blocks.parts }
        ensures blocks { (beside_of result).blocks ≡ self.blocks.amount }
        ensures owner { (beside_of result).owner ≡ self.owner }
    {
        Some(Exclusive::new(self))
    }

    /// Out of a place that has it.
    pub(crate) fn taken(place: &mut Option<Exclusive<Beside<C, B>>>) -> Beside<C, B>
        requires there { 0 < (beside_of place.old).parts }
        ensures parts { result.blocks.parts ≡ (beside_of place.old).parts }
        ensures blocks { result.blocks.amount ≡ (beside_of place.old).blocks }
        ensures owner { result.owner ≡ (beside_of place.old).owner }
    {
        Beside::out_of(mem::take(place))
    }

    /// Out of a place that has it and is taken apart.
    pub(crate) fn out_of(place: Option<Exclusive<Beside<C, B>>>) -> Beside<C, B>
        requires there { 0 < (beside_of place).parts }
        ensures parts { result.blocks.parts ≡ (beside_of place).parts }
        ensures blocks { result.blocks.amount ≡ (beside_of place).blocks }
        ensures owner { result.owner ≡ (beside_of place).owner }
    {
        match place {
            Some(there) => there.into_inner(),
            None => unreachable!(),
        }
    }
}
