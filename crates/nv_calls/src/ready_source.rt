//! A call is made ready and filled in one, with the bytes of a source.

ghost use Rattle.std.specs.Prelude.{◌≡◌, ◌⊎◌, ◌+◌, ◌-◌, ◌<◌, ◌≤◌, ◌^◌, ℕ, List, IfErr, IfOk, OnErr, OnOk, fold, length};
ghost use Rattle.nv_base.specs.Memory.{out_of_memory};
ghost use Rattle.nv_base.specs.declared.fault.Fault.TheVariants.{Read};
ghost use Rattle.nv_entry.specs.Sound.{IsSound};
ghost use Rattle.nv_calls.specs.FillPages.{asks_by, filled, filled_by, fresh_pages, sourced};
ghost use Rattle.nv_calls.specs.Nodes.{HaveBytes, nodes_in, slots_by};
ghost use Rattle.nv_calls.specs.Prepared.{CanReady, HasLogPages, HasNoLessRoom, HaveNoLessRoom, HoldsTheSame, IsReadyBy};

use crate::{Cells, Ready, Source, Update, fill, ready_on};
use nv_alloc::Hand;
use nv_base::Fault;
use std::alloc::Global;

/// Makes a call ready as [`ready_on`] does, and fills its fresh blocks as [`fill`] does: each with the bytes that its
/// page had over these cells, with those of the source in their places. Where the logs of the cells are sound, these
/// are the pages of the file after the call.
///
/// With an error the hand comes back, and of the cells nothing has changed but room. `OutOfMemory` where a growth was
/// refused: then the source was not asked, and of the hand too nothing has changed but room. `Read` where the source
/// failed: then the hand holds what it held, with other bytes in its data blocks. The cost is that of both.
pub fn ready_filled<C: Cells, S: Source>(
    alloc: Global,
    cells: &mut C,
    update: Update,
    hand: Hand,
    source: &mut S,
) -> Result<Ready, (Fault, Hand)>
    requires can { CanReady (C.cells cells.old) hand update }
    requires pages { HasLogPages (C.cells cells.old) hand update }
    requires failures { S.failed source.old < 2 ^ 64 - 1 }
    // A call is made ready and filled in one, over any source.
    ensures ok { IfOk result (λ ready. IsReadyBy (C.cells cells.old) hand update
        (C.cells cells.new) ready) }
    // Its blocks have the bytes of its cells' pages before, with the source's in their places.
    ensures filled { IfOk result (λ ready. ready.hand.data.blocks
        ≡ filled_by (C.cells cells.old) (S.byte_at source.old) update hand.data) }
    // Where the logs of the cells are sound, these are the pages of the file after the call.
    ensures fresh { (bytes : ℕ → List ℕ)
        → HaveBytes bytes hand.data.size (C.cells cells.old)
        → ((ino : ℕ) → IsSound bytes hand.data.size (slots_by (C.cells cells.old) ino).log)
        → IfOk result (λ ready. ready.hand.data.blocks
        ≡ filled (fresh_pages hand.data.size (nodes_in (C.cells cells.old))
        (sourced (S.byte_at source.old) update)) hand.data.blocks) }
    // Where a growth is refused, nothing has changed except room, and the source was not asked.
    // Where the source fails the call is not ready, and the error is `Read`.
    // After such a failure the hand holds what it held, with other bytes in its data blocks.
    ensures err { IfErr result (λ refused.
        ((refused.0 ≡ out_of_memory) × HasNoLessRoom hand refused.1 × (source.new ≡ source.old))
        ⊎ ((refused.0 ≡ Read) × HoldsTheSame hand refused.1
        × (S.failed source.new ≡ S.failed source.old + 1))) }
    ensures failed { OnOk result (S.failed source.new ≡ S.failed source.old) }
    ensures text { S.byte_at source.new ≡ S.byte_at source.old }
    // The source is asked for each page once, and for none after a failure.
    ensures asked { OnOk result (S.state source.new ≡ fold S.asked (S.state source.old)
        (asks_by hand.data.size update (length hand.data.blocks))) }
    ensures asked_err { OnErr result ((pages : ℕ) × (pages ≤ length hand.data.blocks)
        × (S.state source.new ≡ fold S.asked (S.state source.old)
        (asks_by hand.data.size update pages))) }
    // Of the cells nothing changes except room.
    ensures cells { HaveNoLessRoom (C.cells cells.old) (C.cells cells.new) }
    ensures frame { C.frame cells.new ≡ C.frame cells.old }
{
    let mut ready = ready_on(alloc, cells, update, hand)?;
    match fill(&mut ready, cells, source) {
        Ok(()) => Ok(ready),
        Err(fault) => Err((fault, ready.into_hand())),
    }
}
