//! The parts of a world as JSON.

ghost use Rattle.std.specs.Prelude.{◌≡◌, ◌++◌, IfOk, OnOk, codes, length};
ghost use Rattle.nv_alloc.specs.Block.{numbers_of};
ghost use Rattle.nv_alloc.specs.Runs.{free_runs_of};
ghost use Rattle.std.specs.VecDeque.Iter.{deque_iter_rest};
ghost use Rattle.nv_core.specs.NextSteps.{name_in};
ghost use Rattle.nv_core.specs.Shown.{killed_in, shared_of};
ghost use Rattle.nv_core.specs.Worlds.{Shows};
ghost use Rattle.nv_machine.specs.World as machine;
ghost use Rattle.nv_machine.specs.World.{HandState, actor_at, cell_at, list_at, owner_at};
ghost use Rattle.nv_script.specs.Json.{array, array_by, book_object, cell_object, list_object, lock_object, or_null, values_from};
ghost use Rattle.nv_script.specs.JsonWorld.{all_killed, hand_object, has_entry, lent_members, lent_object, numbers_object, slots_with_entry, world_line, world_object};
ghost use Rattle.nv_trace.specs.Traced.{lent_named};

use crate::json::{AsJson, push_array, push_comma, push_or_null};
use crate::json_book::push_book;
use crate::json_log::{push_cell, push_cell_head};
use nv_alloc::{Block, FreeList, FreeRun, Hand};
use nv_base::{BlockNo, GeometryNumbers, Ino};
use nv_calls::Commit;
use nv_cell::KilledPart;
use nv_core::{StepName, World};
use nv_script::text::push_labelled;
use nv_script::word::push_number;
use std::alloc::{AllocError, Global};
use std::collections::vec_deque;

impl AsJson for FreeRun {
    ghost use Rattle.nv_script.specs.Json.{run_pair};

    ghost json = { run_pair };

    fn push_json(&self, out: &mut Vec<u8>) -> Result<(), AllocError> {
        push_labelled(out, b"[", self.first.number())?;
        push_labelled(out, b",", self.last.number())?;
        Ok(out.push(b']')?)
    }
}

impl AsJson for BlockNo {
    ghost use Rattle.std.specs.Prelude.{decimal};

    ghost json = { decimal };

    fn push_json(&self, out: &mut Vec<u8>) -> Result<(), AllocError> {
        push_number(out, self.number())
    }
}

// ---- free lists and locks

/// A free list as maximal runs.
fn runs_of(alloc: Global, list: &FreeList) -> Result<Vec<FreeRun>, AllocError>
    ensures { IfOk result (λ runs. runs.items ≡ free_runs_of (numbers_of list.now.blocks)) }
{
    let runs: Vec<FreeRun> = list.runs().collect(alloc)?;
    Ok(runs)
}

/// Adds a free list.
fn push_list(out: &mut Vec<u8>, alloc: Global, cpu: u64, list: &FreeList) -> Result<(), AllocError>
    ensures { OnOk result (out.new.items ≡ out.old.items ++ list_object cpu list.now) }
{
    let runs = runs_of(alloc, list)?;
    push_labelled(out, b"{\"cpu\":", cpu)?;
    out.extend_from_slice(b",\"free\":")?;
    push_array(out, runs.as_slice())?;
    Ok(out.push(b'}')?)
}

/// Adds the free list of a CPU. One that is not there has no blocks.
fn push_list_at(out: &mut Vec<u8>, world: &World, cpu: u64) -> Result<(), AllocError>
    ensures { OnOk result (out.new.items
        ≡ out.old.items ++ list_object cpu (list_at (shared_of world.now.shared) cpu)) }
{
    match world.free_list(cpu) {
        Some(list) => push_list(out, world.alloc(), cpu, list),
        None => {
            push_labelled(out, b"{\"cpu\":", cpu)?;
            out.extend_from_slice(b",\"free\":[]}")
        }
    }
}

/// Adds the lock of a slot.
fn push_lock(out: &mut Vec<u8>, world: &World, ino: Ino) -> Result<(), AllocError>
    ensures { OnOk result (out.new.items
        ≡ out.old.items ++ lock_object ino (owner_at (shared_of world.now.shared) ino)) }
{
    push_labelled(out, b"{\"ino\":", ino.number())?;
    out.extend_from_slice(b",\"owner\":")?;
    push_or_null(out, world.lock_owner(ino))?;
    Ok(out.push(b'}')?)
}

/// Adds the cell of a slot. One that is not there has no pages.
fn push_cell_at(out: &mut Vec<u8>, world: &World, ino: Ino) -> Result<(), AllocError>
    ensures { OnOk result (out.new.items
        ≡ out.old.items ++ cell_object ino (cell_at (shared_of world.now.shared) ino)) }
{
    match world.cell(ino) {
        Some(cell) => push_cell(out, world.alloc(), ino.number(), cell),
        None => {
            push_cell_head(out, ino.number(), 0, 0)?;
            out.extend_from_slice(b"[]}")
        }
    }
}

// ---- hands

/// The numbers of blocks.
fn numbers(alloc: Global, blocks: vec_deque::Iter<'_, Block>) -> Result<Vec<BlockNo>, AllocError>
    ensures { IfOk result (λ numbers. numbers.items ≡ numbers_of (deque_iter_rest blocks.entry)) }
{
    let mut numbers = Vec::new(alloc);
    for block in blocks {
        numbers.push(block.number())?;
    }
    Ok(numbers)
}

/// The parts that a commit has killed and not yet retired.
fn killed_parts(alloc: Global, commit: &Commit) -> Result<Vec<KilledPart>, AllocError>
    ensures { IfOk result (λ parts. parts.items ≡ all_killed (killed_in commit.now)) }
{
    let mut parts = Vec::new(alloc);
    for j in commit.retired()..commit.published().min(commit.planned()) {
        parts.extend_from_slice(commit.killed_of(j))?;
    }
    Ok(parts)
}

/// How many parts the commit of an actor has killed and not yet retired.
fn killed_count(world: &World, actor: u64) -> Result<usize, AllocError>
    ensures { IfOk result (λ count. (m : machine.World) → Shows world.now m
        → count ≡ length (all_killed (actor_at m actor).hand.killed)) }
{
    match world.commit_of(actor) {
        Some(commit) => Ok(killed_parts(world.alloc(), commit)?.as_slice().len()),
        None => Ok(0),
    }
}

/// Adds what is in a hand, beside so many killed parts.
fn push_hand(out: &mut Vec<u8>, alloc: Global, hand: &Hand, killed: usize) -> Result<(), AllocError>
    ensures { (h : HandState) → h.blocks ≡ hand.now.data.blocks → h.pages ≡ hand.now.pages.blocks
        → h.chain ≡ hand.now.chain → h.ino ≡ hand.now.ino → killed ≡ length (all_killed h.killed)
        → OnOk result (out.new.items ≡ out.old.items ++ hand_object h) }
{
    out.extend_from_slice(b"{\"data\":")?;
    push_array(out, numbers(alloc, hand.data.iter())?.as_slice())?;
    out.extend_from_slice(b",\"log\":")?;
    push_array(out, numbers(alloc, hand.pages.iter())?.as_slice())?;
    out.extend_from_slice(b",\"chain\":")?;
    push_array(out, numbers(alloc, hand.chain.iter())?.as_slice())?;
    out.extend_from_slice(b",\"ino\":")?;
    push_or_null(out, hand.ino().map(Ino::number))?;
    push_labelled(out, b",\"killed\":", killed as u64)?;
    Ok(out.push(b'}')?)
}

/// Adds what an actor has in its hand. One that is not there has nothing.
pub(crate) fn push_hand_of(out: &mut Vec<u8>, world: &World, actor: u64) -> Result<(), AllocError>
    ensures { OnOk result ((m : machine.World) → Shows world.now m
        → out.new.items ≡ out.old.items ++ hand_object (actor_at m actor).hand) }
{
    match world.hand(actor) {
        Some(hand) => push_hand(out, world.alloc(), hand, killed_count(world, actor)?),
        None => {
            out.extend_from_slice(b"{\"data\":[],\"log\":[],\"chain\":[],\"ino\":null")?;
            push_labelled(out, b",\"killed\":", 0)?;
            Ok(out.push(b'}')?)
        }
    }
}

// ---- a whole world

/// Adds the numbers that a world was made for.
fn push_numbers(out: &mut Vec<u8>, numbers: &GeometryNumbers) -> Result<(), AllocError>
    ensures { OnOk result (out.new.items ≡ out.old.items ++ numbers_object numbers.now) }
{
    push_labelled(out, b"{\"blocks\":", numbers.blocks)?;
    push_labelled(out, b",\"cpus\":", numbers.cpus)?;
    push_labelled(out, b",\"block\":", numbers.block)?;
    push_labelled(out, b",\"page\":", numbers.page)?;
    push_labelled(out, b",\"inodes\":", numbers.inodes)?;
    push_labelled(out, b",\"snaps\":", numbers.snaps)?;
    push_labelled(out, b",\"actors\":", numbers.actors)?;
    Ok(out.push(b'}')?)
}

/// Adds the free lists.
fn push_lists(out: &mut Vec<u8>, world: &World) -> Result<(), AllocError>
    ensures { OnOk result (out.new.items
        ≡ out.old.items ++ values_from list_object 0 world.now.shared.lists.items) }
{
    for cpu in 0..world.cpus() {
        push_comma(out, cpu as usize)?;
        push_list_at(out, world, cpu)?;
    }
    Ok(())
}

/// Whether a cell has an entry, also past its tail.
fn has_entry(world: &World, ino: Ino) -> bool
    ensures { result ≡ has_entry (shared_of world.now.shared) ino }
{
    match world.cell(ino) {
        Some(cell) => cell.len() > 0,
        None => false,
    }
}

/// The slots whose cells have an entry.
fn slots_with_entry(world: &World) -> Result<Vec<Ino>, AllocError>
    ensures { IfOk result (λ slots. slots.items ≡ slots_with_entry (shared_of world.now.shared)) }
{
    let mut slots = Vec::new(world.alloc());
    for ino in 0..world.inodes() {
        if has_entry(world, Ino::new(ino)) {
            slots.push(Ino::new(ino))?;
        }
    }
    Ok(slots)
}

/// Adds the cells of these slots.
fn push_cells(out: &mut Vec<u8>, world: &World, slots: &[Ino]) -> Result<(), AllocError>
    ensures { let s = shared_of world.now.shared in OnOk result (out.new.items
        ≡ out.old.items ++ values_from (λ place ino. cell_object ino (cell_at s ino)) 0 slots.now) }
{
    for (place, ino) in slots.iter().enumerate() {
        push_comma(out, place)?;
        push_cell_at(out, world, *ino)?;
    }
    Ok(())
}

/// Adds an array of the free lists.
fn push_all_lists(out: &mut Vec<u8>, world: &World) -> Result<(), AllocError>
    ensures { OnOk result (out.new.items
        ≡ out.old.items ++ array_by list_object world.now.shared.lists.items) }
{
    out.push(b'[')?;
    push_lists(out, world)?;
    Ok(out.push(b']')?)
}

/// Adds an array of the cells that have an entry.
fn push_all_cells(out: &mut Vec<u8>, world: &World) -> Result<(), AllocError>
    ensures { let s = shared_of world.now.shared in OnOk result (out.new.items ≡ out.old.items
        ++ array (λ ino. cell_object ino (cell_at s ino)) (slots_with_entry s)) }
{
    let slots = slots_with_entry(world)?;
    out.push(b'[')?;
    push_cells(out, world, slots.as_slice())?;
    Ok(out.push(b']')?)
}

/// Adds a world in which no call runs.
fn push_world(out: &mut Vec<u8>, world: &World) -> Result<(), AllocError>
    ensures { OnOk result ((m : machine.World) → Shows world.now m
        → out.new.items ≡ out.old.items ++ world_object m) }
{
    out.extend_from_slice(b"{\"numbers\":")?;
    push_numbers(out, &world.geometry().numbers)?;
    out.extend_from_slice(b",\"lists\":")?;
    push_all_lists(out, world)?;
    push_labelled(out, b",\"pool\":", world.free_inodes())?;
    out.extend_from_slice(b",\"cells\":")?;
    push_all_cells(out, world)?;
    out.extend_from_slice(b",\"book\":")?;
    push_book(out, world.alloc(), world.book())?;
    Ok(out.push(b'}')?)
}

/// Adds the line of a world behind a command that makes one.
pub(crate) fn push_world_line(
    out: &mut Vec<u8>,
    number: u64,
    world: &World,
) -> Result<(), AllocError>
    ensures { OnOk result ((m : machine.World) → Shows world.now m
        → out.new.items ≡ out.old.items ++ world_line number m) }
{
    push_labelled(out, b"{\"line\":", number)?;
    out.extend_from_slice(b",\"world\":")?;
    push_world(out, world)?;
    out.extend_from_slice(b"}\n")
}

// ---- what a step was lent

/// Adds a member with the cell of a slot.
fn push_cell_member(out: &mut Vec<u8>, world: &World, ino: Ino) -> Result<(), AllocError>
    ensures { OnOk result (out.new.items ≡ out.old.items
        ++ (codes "\"cell\":" ++ cell_object ino (cell_at (shared_of world.now.shared) ino))) }
{
    out.extend_from_slice(b"\"cell\":")?;
    push_cell_at(out, world, ino)
}

/// Adds a member with the book.
fn push_book_member(out: &mut Vec<u8>, world: &World) -> Result<(), AllocError>
    ensures { OnOk result (out.new.items ≡ out.old.items
        ++ (codes "\"book\":" ++ book_object world.now.shared.book.state)) }
{
    out.extend_from_slice(b"\"book\":")?;
    push_book(out, world.alloc(), world.book())
}

/// Adds a member with the actor that has the commit lock.
fn push_commit_lock(out: &mut Vec<u8>, world: &World) -> Result<(), AllocError>
    ensures { OnOk result (out.new.items ≡ out.old.items
        ++ (codes "\"commit_lock\":" ++ or_null world.now.shared.holder)) }
{
    out.extend_from_slice(b"\"commit_lock\":")?;
    push_or_null(out, world.commit_owner())
}

/// Adds the members of the parts that a step with this name is lent, as they are now.
fn push_lent_members(out: &mut Vec<u8>, world: &World, name: StepName) -> Result<(), AllocError>
    ensures { OnOk result (out.new.items ≡ out.old.items ++ values_from (λ place member. member) 0
        (lent_members (lent_named (name_in name)) (shared_of world.now.shared))) }
{
    match name {
        StepName::Look(_)
        | StepName::Check
        | StepName::Ready
        | StepName::Visit(_)
        | StepName::Show(_)
        | StepName::PlanCleaning => Ok(()),
        StepName::TakeBlocks(cpu)
        | StepName::TakeLogPages(cpu)
        | StepName::Give(cpu)
        | StepName::Fresh(cpu) => {
            out.extend_from_slice(b"\"list\":")?;
            push_list_at(out, world, cpu)
        }
        StepName::Number | StepName::ReturnNumber => {
            push_labelled(out, b"\"pool\":", world.free_inodes())
        }
        StepName::Append(ino)
        | StepName::Publish(ino)
        | StepName::Release(ino)
        | StepName::Unlink(ino)
        | StepName::Compact(ino) => push_cell_member(out, world, ino),
        StepName::Lock(ino)
        | StepName::Unlock(ino)
        | StepName::LockPicked(ino)
        | StepName::LockCleaned(ino) => {
            out.extend_from_slice(b"\"lock\":")?;
            push_lock(out, world, ino)
        }
        StepName::Retire(ino) => {
            push_cell_member(out, world, ino)?;
            out.push(b',')?;
            push_book_member(out, world)
        }
        StepName::Open(_)
        | StepName::Close(_)
        | StepName::Make
        | StepName::Drop
        | StepName::Pin
        | StepName::Unpin
        | StepName::Pick => push_book_member(out, world),
        StepName::Enter => {
            push_book_member(out, world)?;
            out.push(b',')?;
            push_commit_lock(out, world)
        }
        StepName::Leave => push_commit_lock(out, world),
    }
}

/// Adds the parts that a step with this name is lent, as they are now.
pub(crate) fn push_lent(out: &mut Vec<u8>, world: &World, name: StepName) -> Result<(), AllocError>
    ensures { OnOk result (out.new.items ≡ out.old.items
        ++ lent_object (lent_named (name_in name)) (shared_of world.now.shared)) }
{
    out.push(b'{')?;
    push_lent_members(out, world, name)?;
    Ok(out.push(b'}')?)
}
