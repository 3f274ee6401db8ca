//! The plan of a mount: all that it takes memory for.

ghost use Rattle.std.specs.Prelude.{◌≡◌, ◌<◌, ◌≤◌, ◌+◌, ℕ, [], IfOk, OnOk, length, slice_index_or, vec_capacity, vec_len};
ghost use Rattle.nv_base.specs.Memory.{out_of_memory};
ghost use Rattle.nv_base.specs.Refusals.{FailsOnly};
ghost use Rattle.nv_audit.specs.Faults.{IsFaultless};
ghost use Rattle.nv_audit.specs.Image.{ImageValue};
ghost use Rattle.nv_audit.specs.Mounted.{tail_of};
ghost use Rattle.nv_audit.specs.MountedLogs.{cut_tails};
ghost use Rattle.nv_mount.specs.Plan.{HavePageRoom, IsPlanOf, IsSlotPlan, erased_in, is_erased};
ghost use Rattle.nv_mount.specs.View.{IsSeen};

use crate::View;
use crate::logs::{ended, settled_tails};
use crate::parts::{book_anew, pool_anew};
use nv_alloc::{BlockQueue, InodePool};
use nv_base::{Fault, Geometry};
use nv_book::Book;
use nv_cell::{CellPlan, InodeCell};
use std::alloc::Global;
use std::collections::VecDeque;

/// What becomes of a slot.
pub(crate) enum SlotPlan {
    /// Its inode is gone for good.
    Erased,
    /// Its log is cut to so many entries, and its cell is made of this.
    Cell(usize, CellPlan),
}

/// What a mount makes anew, with all memory that it takes: the pool and the book, which are made, and the cells, which
/// are planned. [`Plan::put`] makes the next cell, and [`Plan::finish`] hands all out.
///
/// A plan that is given up ends in [`Plan::discard`].
pub struct Plan {
    pub(crate) alloc: Global,
    pub(crate) geometry: Geometry,
    // Of the slots whose cells are not made yet, by rising number.
    pub(crate) slots: VecDeque<SlotPlan>,
    pub(crate) cells: Vec<InodeCell>,
    // Room for the pages of one log that is cut.
    pub(crate) pages: BlockQueue,
    pub(crate) pool: InodePool,
    pub(crate) book: Book,
}

impl Plan {
    /// The plan of what is seen of a device. The only error is `OutOfMemory`.
    ///
    /// Costs a pass over all logs with a look-up for each part, and what it makes room for.
    pub fn new(alloc: Global, view: &View<'_>) -> Result<Plan, Fault>
        requires { (image : ImageValue) × IsFaultless image × IsSeen image view.now }
        // A plan says of each slot whether it is erased, else where its log is cut.
        ensures ok { (image : ImageValue) → IsFaultless image → IsSeen image view.now
            → IfOk result (IsPlanOf image view.now 0) }
        // The only error is `OutOfMemory`, and all memory is taken here.
        ensures err { FailsOnly out_of_memory result }
    {
        let tails = settled_tails(alloc, view)?;
        let ended = ended(alloc, view, &tails)?;
        let pool = pool_anew(alloc, view, &tails, &ended)?;
        let book = book_anew(alloc, view, &tails)?;
        let slots = plan_slots(alloc, view, &tails, &ended)?;
        match make_room(alloc, view, &tails) {
            Ok((pages, cells)) => Ok(Plan {
                alloc,
                geometry: *view.geometry,
                slots,
                cells,
                pages,
                pool,
                book,
            }),
            Err(fault) => {
                discard(slots);
                Err(fault)
            }
        }
    }

    /// Lets the plan go, of which no cell is made yet.
    pub fn discard(self)
        // A plan of which no cell is made is let go.
        requires { self.cells.items ≡ [] }
    {
        let Plan {
            alloc: _,
            geometry: _,
            slots,
            cells,
            pages,
            pool: _,
            book: _,
        } = self;
        discard(slots);
        cells.destroy_empty();
        pages.dismantle();
    }
}

/// Lets the plans of slots go.
fn discard(mut slots: VecDeque<SlotPlan>) {
    while let Some(slot) = slots.pop_front() {
        match slot {
            SlotPlan::Erased => {}
            SlotPlan::Cell(_, plan) => plan.discard(),
        }
    }
    slots.destroy_empty();
}

/// What becomes of each slot, where logs are cut there, and these inodes are gone for good.
fn plan_slots(
    alloc: Global,
    view: &View<'_>,
    tails: &[usize],
    ended: &[bool],
) -> Result<VecDeque<SlotPlan>, Fault>
    requires seen { (image : ImageValue) × IsFaultless image × IsSeen image view.now
        × (tails.now ≡ cut_tails image) × (ended.now ≡ erased_in image) }
    ensures ok { (image : ImageValue) → IsFaultless image → IsSeen image view.now
        → tails.now ≡ cut_tails image → ended.now ≡ erased_in image
        → IfOk result (λ slots. (length slots.items ≡ length image.slots)
        × ((n : ℕ) (d : SlotPlan) → n < length slots.items
        → IsSlotPlan image view.now n (slice_index_or slots.items n d))) }
    ensures err { FailsOnly out_of_memory result }
{
    let mut slots = Vec::with_capacity(alloc, view.slots.len())?;
    match push_plans(alloc, view, tails, ended, &mut slots) {
        Ok(()) => Ok(VecDeque::from_vec(slots)),
        Err(fault) => {
            discard(VecDeque::from_vec(slots));
            Err(fault)
        }
    }
}

/// Puts the plans of all slots into a list that has room for them.
fn push_plans(
    alloc: Global,
    view: &View<'_>,
    tails: &[usize],
    ended: &[bool],
    slots: &mut Vec<SlotPlan>,
) -> Result<(), Fault>
    requires none { slots.old.items ≡ [] }
    requires room { length view.now.slots ≤ vec_capacity slots.old }
    requires seen { (image : ImageValue) × IsFaultless image × IsSeen image view.now
        × (tails.now ≡ cut_tails image) × (ended.now ≡ erased_in image) }
    ensures ok { (image : ImageValue) → IsFaultless image → IsSeen image view.now
        → tails.now ≡ cut_tails image → ended.now ≡ erased_in image
        → OnOk result ((length slots.new.items ≡ length image.slots)
        × ((n : ℕ) (d : SlotPlan) → n < length slots.new.items
        → IsSlotPlan image view.now n (slice_index_or slots.new.items n d))) }
    ensures err { FailsOnly out_of_memory result }
{
    for ino in 0..view.slots.len() {
        let plan = plan_slot(alloc, view, ino, tails[ino], ended[ino])?;
        slots.push_reserved(plan);
    }
    Ok(())
}

/// What becomes of one slot.
fn plan_slot(
    alloc: Global,
    view: &View<'_>,
    ino: usize,
    tail: usize,
    ended: bool,
) -> Result<SlotPlan, Fault>
    requires within { ino < length view.now.slots }
    requires seen { (image : ImageValue) × IsFaultless image × IsSeen image view.now
        × (tail ≡ tail_of image ino) × (ended ≡ is_erased image ino) }
    ensures ok { (image : ImageValue) → IsFaultless image → IsSeen image view.now
        → tail ≡ tail_of image ino → ended ≡ is_erased image ino
        → IfOk result (IsSlotPlan image view.now ino) }
    ensures err { FailsOnly out_of_memory result }
{
    if ended {
        return Ok(SlotPlan::Erased);
    }
    let block = view.geometry.numbers.block;
    let slot = &view.slots[ino];
    let plan = CellPlan::new(alloc, block, slot.chain, tail, view.snapshots)?;
    Ok(SlotPlan::Cell(tail, plan))
}

/// Room for the pages of one log that is cut, and for all cells.
fn make_room(
    alloc: Global,
    view: &View<'_>,
    tails: &[usize],
) -> Result<(BlockQueue, Vec<InodeCell>), Fault>
    requires { length tails.now ≡ length view.now.slots }
    ensures pages { (image : ImageValue) → IsSeen image view.now → tails.now ≡ cut_tails image
        → IfOk result (λ room. HavePageRoom image view.now room.0.room) }
    ensures size { IfOk result (λ room. room.0.size ≡ view.now.numbers.block) }
    ensures no_pages { IfOk result (λ room. room.0.blocks ≡ []) }
    ensures no_cells { IfOk result (λ room. room.1.items ≡ []) }
    ensures cells { IfOk result (λ room. length view.now.slots ≤ vec_capacity room.1) }
    ensures err { FailsOnly out_of_memory result }
{
    let mut pages = BlockQueue::new(alloc, view.geometry.numbers.block as usize);
    if let Err(fault) = pages.reserve(most_pages(view, tails) as u64) {
        pages.dismantle();
        return Err(fault);
    }
    match Vec::with_capacity(alloc, view.slots.len()) {
        Ok(cells) => Ok((pages, cells)),
        Err(error) => {
            pages.dismantle();
            Err(error.into())
        }
    }
}

/// The most pages that the cut of one log gives away.
fn most_pages(view: &View<'_>, tails: &[usize]) -> usize
    requires { length tails.now ≡ length view.now.slots }
    ensures { (image : ImageValue) → IsSeen image view.now → tails.now ≡ cut_tails image
        → HavePageRoom image view.now result }
{
    let mut most = 0;
    for ino in 0..view.slots.len() {
        let slot = &view.slots[ino];
        most = most.max(slot.chain.pages_past(tails[ino]));
    }
    most
}
