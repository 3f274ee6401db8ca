//! The parts of the world that a mount makes of an image.

ghost use Rattle.std.specs.Prelude.{◌≡◌, ◌≤◌, [], IfErr, IfOk, OnErr, length, reverse, vec_capacity};
ghost use Rattle.nv_audit.specs.Faults.{IsFaultless};
ghost use Rattle.nv_audit.specs.Image.{ImageValue};
ghost use Rattle.nv_base.specs.Memory.{out_of_memory};
ghost use Rattle.nv_base.specs.Refusals.{FailsOnly};
ghost use Rattle.nv_mount.specs.Mount.{AreLeft, AreMounted, AreOpened, AreSeen, CanBuild, IsBuilt};

use crate::homes::dismantle_lists;
use crate::slots::{close_slots, open_slots};
use crate::{Plan, SlotView, View, missing_blocks};
use nv_alloc::{FreeList, InodePool};
use nv_audit::Image;
use nv_base::{Fault, Geometry};
use nv_book::Book;
use nv_cell::{BareCell, InodeCell};
use std::alloc::{AllocError, Global};

/// The parts of a world at rest, as a mount makes them: the cell of each inode slot, the free list of each CPU, the pool
/// of inode numbers, and the book.
pub struct MountedParts {
    pub geometry: Geometry,
    pub cells: Vec<InodeCell>,
    pub lists: Vec<FreeList>,
    pub pool: InodePool,
    pub book: Book,
}

/// Makes the parts of an image without a fault. The only error is `OutOfMemory`, with the very image.
///
/// Costs a pass over all logs with a look-up for each part, a logarithm for each block, and what it makes room for.
pub fn mount_parts(alloc: Global, image: Image) -> Result<MountedParts, (Fault, Image)>
    requires { IsFaultless image }
    // The parts of an image are those that a mount makes.
    ensures ok { IfOk result (AreMounted image) }
    ensures device { IfOk result (λ parts. parts.geometry.numbers ≡ image.numbers) }
    // The only error is `OutOfMemory`, and then the very image comes back.
    ensures err { IfErr result (λ refused. refused.0 ≡ out_of_memory) }
    ensures same { IfErr result (λ refused. refused.1 ≡ image) }
{
    match Room::new(alloc, &image) {
        Ok(room) => room.mount(alloc, image),
        Err(fault) => Err((fault, image)),
    }
}

/// What a mount has beside its plan: the free lists, with the blocks that the image does not have, and room for what is
/// left of the slots.
struct Room {
    lists: Vec<FreeList>,
    bare: Vec<BareCell>,
}

impl Room {
    /// That of an image. The only error is `OutOfMemory`.
    fn new(alloc: Global, image: &Image) -> Result<Room, Fault>
        requires { IsFaultless image.now }
        ensures lists { IfOk result (λ room. AreLeft image.now room.lists.items) }
        ensures none { IfOk result (λ room. room.bare.items ≡ []) }
        ensures room { IfOk result (λ room. length image.now.slots ≤ vec_capacity room.bare) }
        ensures err { FailsOnly out_of_memory result }
    {
        let lists = missing_blocks(alloc, image)?;
        match Vec::with_capacity(alloc, image.slots.len()) {
            Ok(bare) => Ok(Room { lists, bare }),
            Err(error) => {
                dismantle_lists(lists);
                Err(error.into())
            }
        }
    }

    /// Makes the plan, and then the parts without memory.
    fn mount(self, alloc: Global, image: Image) -> Result<MountedParts, (Fault, Image)>
        requires faultless { IsFaultless image }
        requires lists { AreLeft image self.lists.items }
        requires none { self.bare.items ≡ [] }
        requires room { length image.slots ≤ vec_capacity self.bare }
        ensures ok { IfOk result (AreMounted image) }
        ensures device { IfOk result (λ parts. parts.geometry.numbers ≡ image.numbers) }
        ensures err { IfErr result (λ refused. refused.0 ≡ out_of_memory) }
        ensures same { IfErr result (λ refused. refused.1 ≡ image) }
    {
        let Room { lists, mut bare } = self;
        let mut image = image;
        match plan_image(alloc, &mut image, &mut bare) {
            Ok(plan) => Ok(build(image, plan, bare, lists)),
            Err(fault) => {
                bare.destroy_empty();
                dismantle_lists(lists);
                Err((fault, image))
            }
        }
    }
}

/// Plans an image, of whose slots `bare` has what is left then, the last one first. Where memory is refused all is as it
/// was.
fn plan_image(alloc: Global, image: &mut Image, bare: &mut Vec<BareCell>) -> Result<Plan, Fault>
    requires faultless { IsFaultless image.old }
    requires none { bare.old.items ≡ [] }
    requires room { length image.old.slots ≤ vec_capacity bare.old }
    ensures ok { IfOk result (λ plan. CanBuild image.old plan bare.new.items) }
    ensures slots { IfOk result (λ plan. image.new.slots ≡ []) }
    ensures device { image.new.numbers ≡ image.old.numbers }
    ensures err { FailsOnly out_of_memory result }
    ensures same { OnErr result (image.new ≡ image.old) }
    ensures no_bare { OnErr result (bare.new.items ≡ []) }
{
    let page = image.geometry.numbers.page as usize;
    open_slots(page, &mut image.slots, bare)?;
    match plan_opened(alloc, &*image, bare.as_slice()) {
        Ok(plan) => Ok(plan),
        Err(fault) => {
            close_slots(bare, &mut image.slots);
            Err(fault)
        }
    }
}

/// Plans an image whose slots are opened.
fn plan_opened(alloc: Global, image: &Image, bare: &[BareCell]) -> Result<Plan, Fault>
    requires { (whole : ImageValue) × IsFaultless whole × AreOpened whole image.now bare.now }
    ensures ok { (whole : ImageValue) → IsFaultless whole → AreOpened whole image.now bare.now
        → IfOk result (λ plan. CanBuild whole plan bare.now) }
    ensures err { FailsOnly out_of_memory result }
{
    let slots = seen_of(alloc, bare)?;
    let view = View {
        geometry: &image.geometry,
        slots: slots.as_slice(),
        journals: image.journals.as_slice(),
        snapshots: image.snapshots.as_slice(),
        epoch: image.epoch,
        commit: image.commit,
    };
    Plan::new(alloc, &view)
}

/// What a plan reads of the slots, of which the last one stands first.
fn seen_of(alloc: Global, bare: &[BareCell]) -> Result<Vec<SlotView<'_>>, AllocError>
    ensures { IfOk result (λ slots. AreSeen (reverse bare.now) slots.items) }
{
    let mut slots = Vec::with_capacity(alloc, bare.len())?;
    for k in 0..bare.len() {
        let cell = &bare[bare.len() - 1 - k];
        slots.push_reserved(SlotView {
            generation: cell.generation,
            chain: &cell.chain,
        });
    }
    Ok(slots)
}

/// Makes the parts. Takes no memory.
fn build(image: Image, plan: Plan, bare: Vec<BareCell>, lists: Vec<FreeList>) -> MountedParts
    requires ready { (whole : ImageValue) × CanBuild whole plan bare.items
        × AreLeft whole lists.items }
    requires none { image.slots ≡ [] }
    ensures made { (whole : ImageValue) → CanBuild whole plan bare.items
        → AreLeft whole lists.items → AreMounted whole result }
    ensures device { result.geometry.numbers ≡ image.numbers }
{
    let Image {
        geometry,
        slots,
        journals: _,
        snapshots: _,
        epoch: _,
        commit: _,
    } = image;
    slots.destroy_empty();
    let mut plan = plan;
    let mut lists = lists;
    put_all(&mut plan, bare, &mut lists);
    let (cells, pool, book) = plan.finish();
    MountedParts {
        geometry,
        cells,
        lists,
        pool,
        book,
    }
}

/// Makes all cells, of what is left of the slots, the last one first.
fn put_all(plan: &mut Plan, bare: Vec<BareCell>, lists: &mut Vec<FreeList>)
    requires { (image : ImageValue) × CanBuild image plan.old bare.items
        × AreLeft image lists.old.items }
    ensures { (image : ImageValue) → CanBuild image plan.old bare.items
        → AreLeft image lists.old.items
        → IsBuilt image plan.new lists.new.items }
{
    let mut bare = bare;
    while let Some(slot) = bare.pop() {
        plan.put(slot, lists);
    }
    bare.destroy_empty();
}
