//! Room in the hand for the blocks that a call takes.

ghost use Rattle.std.specs.Prelude.{◌≡◌, ◌⊎◌, ◌<◌, ◌^◌, OnErr, OnOk};
ghost use Rattle.nv_base.specs.Memory.{out_of_memory};
ghost use Rattle.nv_base.specs.Refusals.{FailsOnlyWhere};
ghost use Rattle.nv_calls.specs.HandRoom.{pages_at_most, with_rooms};
ghost use Rattle.nv_calls.specs.Prepared.{CanReady, HasNoLessRoom};

use crate::{Cells, MORE_PAGES, Update, pages_wanted};
use nv_alloc::Hand;
use nv_base::Fault;

/// Makes room in the hand for what a call takes that passed its check: for so many data blocks, and for the log pages
/// that it takes after them. Where it takes no data block, these are counted now, and where it takes no log page
/// either, nothing grows.
///
/// `OutOfMemory` where a growth was refused: then nothing has changed but room. Costs the growths, and what
/// [`pages_wanted`] costs where it takes no data block.
pub fn make_room<C: Cells>(
    cells: &C,
    update: &Update,
    hand: &mut Hand,
    wanted: u64,
) -> Result<(), Fault>
    requires none { wanted ≡ 0 → CanReady (C.cells cells.now) hand.old update.now }
    requires few { wanted < 2 ^ 32 }
    // The hand gets room for the data blocks that a call takes, and for the log pages after them.
    // Where a call takes no data, its log pages are counted before, and else `MORE_PAGES` are added.
    ensures ok { OnOk result (hand.new ≡ with_rooms wanted
        (pages_at_most wanted (C.cells cells.now) hand.old update.now) hand.old) }
    // A call is refused memory only where it grows.
    ensures err { FailsOnlyWhere out_of_memory ((hand.old.data.room < wanted) ⊎ (hand.old.pages.room
        < pages_at_most wanted (C.cells cells.now) hand.old update.now)) result }
    // Where a growth is refused, nothing has changed except room.
    ensures same { OnErr result (HasNoLessRoom hand.old hand.new) }
{
    let pages = pages_at_most(cells, update, hand, wanted);
    hand.data.reserve(wanted)?;
    hand.pages.reserve(pages)
}

/// How many log pages a call takes at most that takes so many data blocks. Where it takes none they can be counted
/// before.
fn pages_at_most<C: Cells>(cells: &C, update: &Update, hand: &Hand, wanted: u64) -> u64
    requires none { wanted ≡ 0 → CanReady (C.cells cells.now) hand.now update.now }
    requires few { wanted < 2 ^ 32 }
    ensures { result ≡ pages_at_most wanted (C.cells cells.now) hand.now update.now }
{
    if wanted > 0 {
        return wanted + MORE_PAGES;
    }
    pages_wanted(cells, update, hand)
}
