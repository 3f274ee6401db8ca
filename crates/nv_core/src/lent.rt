//! The cells of a call, lent out of those of all slots: for its room, for its growths, and for the steps of its commit. The
//! cells of all other slots stay as they are.

ghost use Rattle.std.specs.Prelude.{◌≡◌, ◌⊎◌, ℕ, ◌+◌, ◌<◌, ◌≤◌, ◌^◌, [], false, true, IfErr, IfOk, OnErr, OnOk, None, length, map, slice_index_or, slice_set};
ghost use Rattle.nv_base.specs.Memory.{out_of_memory};
ghost use Rattle.nv_base.specs.Refusals.{FailsOnlyWhere};
ghost use Rattle.nv_book.specs.Book.{with_journal};
ghost use Rattle.nv_calls.specs.CanCommit.{CanBePublished};
ghost use Rattle.nv_calls.specs.Cells.{AreCells, OnlyAt, ino_at, state_at, value_at, with_value};
ghost use Rattle.nv_calls.specs.Commit.{NotesNext, after_append, after_open, after_publish, after_retire, to_append, to_publish, to_retire};
ghost use Rattle.nv_calls.specs.HandRoom.{pages_at_most, with_rooms};
ghost use Rattle.nv_calls.specs.PagesWanted.{pages_wanted};
ghost use Rattle.nv_calls.specs.Prepared.{CanReady, HasLogPages, HasNoLessRoom, HaveNoLessRoom, IsReadyBy, planned_by};
ghost use Rattle.nv_calls.specs.Ready.{ArePlaced, old_tails};
ghost use Rattle.nv_calls.specs.Retired.{CanRetire};
ghost use Rattle.nv_calls.specs.Retiring.{erased, part_in, retired, room_erased, with_records};
ghost use Rattle.nv_calls.specs.SlotCells.{cell_in, lent_cells, other_cells};
ghost use Rattle.nv_calls.specs.Steps.{CanAppendPlan, with_plan};
ghost use Rattle.nv_calls.specs.declared.log_pages.TheConstants.{MORE_PAGES};
ghost use Rattle.nv_cell.specs.Cell.{KeepsAppendRoom, fresh_of, killed_by, log_of, published};
ghost use Rattle.nv_cell.specs.Effects.{items_of};
ghost use Rattle.nv_cell.specs.Killed.{AreKilled};
ghost use Rattle.nv_cell.specs.Room.{IsReadyFor};
ghost use Rattle.nv_cell.specs.Weights.{weights_in};
ghost use Rattle.nv_epoch.specs.SnapList.{ids};
ghost use Rattle.nv_machine.specs.Reads.{slot_at};
ghost use Rattle.nv_core.specs.Parts.{HaveSlots};
ghost use Rattle.nv_core.specs.Readied.{filled_hand};
ghost use Rattle.nv_core.specs.Shown.{hand_of, slots_in};

use nv_alloc::Hand;
use nv_base::Fault;
use nv_book::Book;
use nv_calls::{
    Commit, LockedSlots, Ready, SlotCells, Update, append_on, make_room, open_on, pages_wanted,
    publish_on, ready_filled, retire_on,
};
use nv_cell::InodeCell;
use nv_parts::Text;
use std::alloc::Global;

/// How many log pages a call wants, with the data blocks in the hand.
pub(crate) fn pages_in(
    cells: &mut [InodeCell],
    slots: &LockedSlots,
    update: &Update,
    hand: &Hand,
) -> u64
    requires slots { HaveSlots cells.old (slots_in slots.now) }
    requires can { CanReady (lent_cells (slots_in slots.now) cells.old) hand.now update.now }
    ensures same { cells.new ≡ cells.old }
    ensures wanted { let lent = lent_cells (slots_in slots.now) cells.old in
        result ≡ pages_wanted lent (planned_by lent hand.now update.now) }
    ensures few { result ≤ length hand.now.data.blocks + MORE_PAGES }
{
    let slots = slots.as_slice();
    let lent = SlotCells { cells, slots };
    pages_wanted(&lent, update, hand)
}

/// Makes room in the hand for so many data blocks, and for the log pages that the call takes after them.
pub(crate) fn room_in(
    cells: &mut [InodeCell],
    slots: &LockedSlots,
    update: &Update,
    hand: &mut Hand,
    wanted: u64,
) -> Result<(), Fault>
    requires slots { HaveSlots cells.old (slots_in slots.now) }
    requires none { wanted ≡ 0
        → CanReady (lent_cells (slots_in slots.now) cells.old) hand.old update.now }
    requires few { wanted < 2 ^ 32 }
    ensures same { cells.new ≡ cells.old }
    ensures ok { let lent = lent_cells (slots_in slots.now) cells.old in
        OnOk result (hand.new ≡ with_rooms wanted
        (pages_at_most wanted lent hand.old update.now) hand.old) }
    ensures err { let lent = lent_cells (slots_in slots.now) cells.old in
        FailsOnlyWhere out_of_memory ((hand.old.data.room < wanted)
        ⊎ (hand.old.pages.room < pages_at_most wanted lent hand.old update.now)) result }
    ensures kept { OnErr result (HasNoLessRoom hand.old hand.new) }
{
    let slots = slots.as_slice();
    let lent = SlotCells { cells, slots };
    make_room(&lent, update, hand, wanted)
}

/// Makes all growths of a call, and fills its fresh blocks with the bytes of its pages. A text in memory doesn't fail.
pub(crate) fn ready_in(
    alloc: Global,
    cells: &mut [InodeCell],
    slots: &LockedSlots,
    update: Update,
    hand: Hand,
    text: &[u8],
) -> Result<Ready, (Fault, Hand)>
    requires slots { HaveSlots cells.old (slots_in slots.now) }
    requires can { CanReady (lent_cells (slots_in slots.now) cells.old) hand update }
    requires pages { HasLogPages (lent_cells (slots_in slots.now) cells.old) hand update }
    ensures ok { IfOk result (λ ready. IsReadyBy (lent_cells (slots_in slots.now) cells.old) hand
        update (lent_cells (slots_in slots.now) cells.new) ready) }
    ensures filled { IfOk result (λ ready. hand_of ready.hand
        ≡ filled_hand (lent_cells (slots_in slots.now) cells.old) text.now update hand) }
    ensures err { IfErr result (λ refused. (refused.0 ≡ out_of_memory)
        × HasNoLessRoom hand refused.1) }
    ensures cells { HaveNoLessRoom (lent_cells (slots_in slots.now) cells.old)
        (lent_cells (slots_in slots.now) cells.new) }
    ensures others { other_cells (slots_in slots.now) cells.new
        ≡ other_cells (slots_in slots.now) cells.old }
    ensures count { length cells.new ≡ length cells.old }
{
    let slots = slots.as_slice();
    let mut lent = SlotCells { cells, slots };
    let mut source = Text { bytes: text };
    ready_filled(alloc, &mut lent, update, hand, &mut source)
}

/// Appends the entries of the next inode.
pub(crate) fn append_in(cells: &mut [InodeCell], slots: &LockedSlots, commit: &mut Commit)
    requires slots { HaveSlots cells.old (slots_in slots.now) }
    requires turn { commit.old.appended < length commit.old.plans }
    requires within { (to_append commit.old).at < length (slots_in slots.now) }
    requires can { let plan = to_append commit.old in
        CanAppendPlan commit.old.stamp commit.old.place plan.items commit.old.hand
        (value_at (lent_cells (slots_in slots.now) cells.old) plan.at) }
    ensures cells { let plan = to_append commit.old in
        let lent = lent_cells (slots_in slots.now) cells.old in
        lent_cells (slots_in slots.now) cells.new ≡ with_value lent plan.at
        (with_plan commit.old.stamp commit.old.place plan.items commit.old.hand
        (value_at lent plan.at)) }
    ensures others { other_cells (slots_in slots.now) cells.new
        ≡ other_cells (slots_in slots.now) cells.old }
    ensures count { length cells.new ≡ length cells.old }
    ensures commit { let lent = lent_cells (slots_in slots.now) cells.old in
        commit.new ≡ after_append (state_at lent (to_append commit.old).at).chain commit.old }
    ensures ready { IsReadyFor []
        (value_at (lent_cells (slots_in slots.now) cells.new) (to_append commit.old).at) }
{
    let slots = slots.as_slice();
    let mut lent = SlotCells { cells, slots };
    append_on(&mut lent, commit);
}

/// Opens the journal of a CPU with the tails of all inodes that get entries.
pub(crate) fn open_in(
    book: &mut Book,
    cells: &mut [InodeCell],
    slots: &LockedSlots,
    commit: &mut Commit,
    cpu: u64,
)
    requires slots { HaveSlots cells.old (slots_in slots.now) }
    requires turn { commit.old.appended ≡ length commit.old.plans }
    requires first { commit.old.published ≡ 0 }
    requires cells { AreCells (lent_cells (slots_in slots.now) cells.old) }
    requires placed { ArePlaced (lent_cells (slots_in slots.now) cells.old) commit.old.plans }
    requires two { 2 ≤ length commit.old.plans }
    requires none { commit.old.journal ≡ None }
    requires cpu { cpu < length book.old.state.journals }
    requires closed { slice_index_or book.old.state.journals cpu [] ≡ [] }
    ensures cells { lent_cells (slots_in slots.now) cells.new
        ≡ lent_cells (slots_in slots.now) cells.old }
    ensures others { other_cells (slots_in slots.now) cells.new
        ≡ other_cells (slots_in slots.now) cells.old }
    ensures count { length cells.new ≡ length cells.old }
    ensures book { book.new ≡ record book.old {
      state = with_journal cpu
          (old_tails (lent_cells (slots_in slots.now) cells.old) commit.old.plans) book.old.state;
    } }
    ensures commit { commit.new ≡ after_open cpu
        (old_tails (lent_cells (slots_in slots.now) cells.old) commit.old.plans) commit.old }
{
    let slots = slots.as_slice();
    let lent = SlotCells { cells, slots };
    open_on(book, &lent, commit, cpu);
}

/// Publishes the entries of the next inode.
pub(crate) fn publish_in(
    book: &Book,
    cells: &mut [InodeCell],
    slots: &LockedSlots,
    commit: &mut Commit,
)
    requires slots { HaveSlots cells.old (slots_in slots.now) }
    requires turn { commit.old.published < length commit.old.plans }
    requires appended { commit.old.appended ≡ length commit.old.plans }
    requires journal { 2 ≤ length commit.old.plans → NotesNext book.now.state
        (lent_cells (slots_in slots.now) cells.old) commit.old }
    requires within { (to_publish commit.old).at < length (slots_in slots.now) }
    requires can { CanBePublished
        (cell_in cells.old (slot_at (slots_in slots.now) (to_publish commit.old).at)) }
    ensures cells { let k = (to_publish commit.old).at in
        OnlyAt k (lent_cells (slots_in slots.now) cells.old)
        (lent_cells (slots_in slots.now) cells.new) }
    ensures others { other_cells (slots_in slots.now) cells.new
        ≡ other_cells (slots_in slots.now) cells.old }
    ensures count { length cells.new ≡ length cells.old }
    ensures state { let ino = slot_at (slots_in slots.now) (to_publish commit.old).at in
        (cell_in cells.new ino).state ≡ published (cell_in cells.old ino).state }
    ensures commit { let ino = slot_at (slots_in slots.now) (to_publish commit.old).at in
        commit.new ≡ after_publish (killed_by (cell_in cells.old ino).state) commit.old }
    ensures few { let lent = lent_cells (slots_in slots.now) cells.old in
        let cell = state_at lent (to_publish commit.old).at in
        length (killed_by cell) ≤ weights_in cell.block (log_of cell) (items_of (fresh_of cell)) }
    ensures marked { let k = (to_publish commit.old).at in
        AreKilled (map part_in (killed_by (state_at (lent_cells (slots_in slots.now) cells.old) k)))
        (state_at (lent_cells (slots_in slots.now) cells.new) k) }
    ensures room { let k = (to_publish commit.old).at in
        KeepsAppendRoom (value_at (lent_cells (slots_in slots.now) cells.old) k).room
        (value_at (lent_cells (slots_in slots.now) cells.new) k).room }
{
    let slots = slots.as_slice();
    let mut lent = SlotCells { cells, slots };
    publish_on(book, &mut lent, commit);
}

/// Retires what was killed of the next inode.
pub(crate) fn retire_in(
    book: &mut Book,
    cells: &mut [InodeCell],
    slots: &LockedSlots,
    commit: &mut Commit,
)
    requires slots { HaveSlots cells.old (slots_in slots.now) }
    requires turn { commit.old.retired < length commit.old.plans }
    requires published { commit.old.published ≡ length commit.old.plans }
    requires closed { commit.old.journal ≡ None }
    requires within { (to_retire commit.old).at < length (slots_in slots.now) }
    requires dead { commit.old.stamp.epoch ≤ book.old.state.snaps.epoch }
    requires room { length (to_retire commit.old).killed ≤ book.old.room }
    requires free { length (to_retire commit.old).killed ≤ commit.old.hand.data.room }
    requires can { let plan = to_retire commit.old in CanRetire plan.killed commit.old.hand
        (cell_in cells.old (slot_at (slots_in slots.now) plan.at)).state }
    ensures cells { let k = (to_retire commit.old).at in
        OnlyAt k (lent_cells (slots_in slots.now) cells.old)
        (lent_cells (slots_in slots.now) cells.new) }
    ensures others { other_cells (slots_in slots.now) cells.new
        ≡ other_cells (slots_in slots.now) cells.old }
    ensures count { length cells.new ≡ length cells.old }
    ensures state { let plan = to_retire commit.old in
        let ino = slot_at (slots_in slots.now) plan.at in
        (cell_in cells.new ino).state ≡ erased (retired (ids book.old.state.snaps) ino
        commit.old.stamp.epoch plan.killed (cell_in cells.old ino).state) }
    ensures book { let plan = to_retire commit.old in
        let ino = slot_at (slots_in slots.now) plan.at in
        book.new.state ≡ record book.old.state {
          manifests = with_records (ids book.old.state.snaps) ino commit.old.stamp.epoch plan.killed
              book.old.state.manifests;
        } }
    ensures room { book.old.room ≤ book.new.room + length (to_retire commit.old).killed }
    ensures cell_room { let plan = to_retire commit.old in
        let lent = lent_cells (slots_in slots.now) cells.old in
        (value_at (lent_cells (slots_in slots.now) cells.new) plan.at).room
        ≡ room_erased (retired (ids book.old.state.snaps) (ino_at lent plan.at)
        commit.old.stamp.epoch plan.killed (state_at lent plan.at)) (value_at lent plan.at).room }
    ensures commit { let ino = slot_at (slots_in slots.now) (to_retire commit.old).at in
        commit.new ≡ after_retire (ids book.old.state.snaps) ino (cell_in cells.old ino).state
        commit.old }
{
    let slots = slots.as_slice();
    let mut lent = SlotCells { cells, slots };
    retire_on(book, &mut lent, commit);
}
