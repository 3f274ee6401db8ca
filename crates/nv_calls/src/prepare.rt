//! What makes a call ready to be committed: its items, cell by cell, and all room that they need.

ghost use Rattle.std.specs.Prelude.{◌≡◌, ◌<◌, ◌≤◌, ◌^◌, IfErr, IfOk, OnErr, OnOk, length, unwrap_or};
ghost use Rattle.std.specs.List.{AllByRecursion, sum_by};
ghost use Rattle.nv_alloc.specs.Block.{numbers_of};
ghost use Rattle.nv_base.specs.Refusals.{FailsOnly};
ghost use Rattle.nv_base.specs.Memory.{out_of_memory};
ghost use Rattle.nv_base.specs.declared.limits.TheConstants.{NUMBER};
ghost use Rattle.nv_cell.specs.Effects.{BindOne};
ghost use Rattle.nv_entry.specs.Sound.{blocks_of};
ghost use Rattle.nv_calls.specs.Cells.{AreCells, state_at};
ghost use Rattle.nv_calls.specs.Prepared.{AreReady, CanReady, HasLogPages, HasNoLessRoom, HaveNoLessRoom, IsReadyBy, cell_plans, handle_made_by, no_handle, planned_by, plans_by, taken_by};
ghost use Rattle.nv_calls.specs.Nodes.{block_in};
ghost use Rattle.nv_calls.specs.Plan.{AreMaximal, block_runs_of};
ghost use Rattle.nv_calls.specs.Ready.{ArePlaced, need_of};
ghost use Rattle.nv_calls.specs.Steps.{HaveBlocks};

use crate::planning::plan_items;
use crate::runs::runs_in;
use crate::{Allocation, CellCommit, Cells, HeldNodes, InodePlans, Ready, Update};
use nv_alloc::Hand;
use nv_base::{Fault, Gen, Handle, Ino, NoMemory};
use std::alloc::{AllocError, Global};

/// The handle of a new inode, where the call makes one: its number, with the generation of its slot.
fn made_by<C: Cells>(cells: &C, number: Option<Ino>, update: &Update) -> Option<Handle>
    requires { length (C.cells cells.now) ≤ 4 }
    ensures { result ≡ handle_made_by (C.cells cells.now) number update.now }
{
    match update {
        Update::Create { .. } | Update::Mkdir { .. } => {
            Some(HeldNodes::new(cells).handle_in(number?))
        }
        _ => None,
    }
}

/// The bytes of a block, which are the same for all cells.
fn block_in<C: Cells>(cells: &C) -> u64
    requires { length (C.cells cells.now) ≤ 4 }
    ensures value { result ≡ block_in (C.cells cells.now) }
    ensures some { 0 < result }
{
    if cells.count() == 0 {
        return 1;
    }
    cells.cell(0).block_bytes()
}

/// What holds of the cells of a call: a block has a byte. Costs nothing.
fn blocks_have_bytes<C: Cells>(cells: &C)
    requires { length (C.cells cells.now) ≤ 4 }
    ensures { 0 < block_in (C.cells cells.now) }
{
    let _block = block_in(cells);
}

/// The items of a call, inode by inode, with the blocks of its hand.
fn planned_by<C: Cells>(
    alloc: Global,
    cells: &C,
    update: &Update,
    made: &Option<Handle>,
    hand: &Hand,
) -> Result<InodePlans, Fault>
    requires can { CanReady (C.cells cells.now) hand.now update.now }
    requires made { made.now ≡ handle_made_by (C.cells cells.now) hand.now.ino update.now }
    ensures ok { IfOk result (λ planned. planned
        ≡ planned_by (C.cells cells.now) hand.now update.now) }
    ensures runs { IfOk result (λ planned. let numbers = numbers_of hand.now.data.blocks in
        AreMaximal (block_runs_of numbers) × (blocks_of (block_runs_of numbers) ≡ numbers)) }
    ensures err { FailsOnly out_of_memory result }
{
    let block = block_in(cells);
    let nodes = HeldNodes::new(cells);
    let runs = runs_in(alloc, &hand.data)?;
    let made = or_none(made);
    let taken = Allocation { made, runs };
    plan_items(alloc, block, &nodes, &taken, update)
}

/// A handle that leads nowhere where there is none.
fn or_none(made: &Option<Handle>) -> Handle
    ensures { result ≡ unwrap_or made.now no_handle }
{
    match made {
        Some(made) => *made,
        None => Handle {
            ino: Ino::new(0),
            generation: Gen::new(0),
        },
    }
}

/// What is planned, cell by cell.
fn cell_plans<C: Cells>(
    alloc: Global,
    cells: &C,
    planned: InodePlans,
) -> Result<Vec<CellCommit>, AllocError>
    requires { AreCells (C.cells cells.now) }
    ensures { IfOk result (λ plans. plans.items
        ≡ cell_plans planned 0 (C.cells cells.now)) }
{
    let mut left = planned;
    let mut plans = Vec::new(alloc);
    for at in 0..cells.count() {
        let items = left.take(alloc, cells.ino(at));
        if !items.is_empty() {
            plans.push(CellCommit::new(alloc, at, items))?;
        }
    }
    Ok(plans)
}

/// Makes the growths of the planned cells.
fn ready_cells<C: Cells>(cells: &mut C, plans: &[CellCommit]) -> Result<(), Fault>
    requires placed { ArePlaced (C.cells cells.old) plans.now }
    requires settled { AllByRecursion (λ p. let chain = (state_at (C.cells cells.old) p.at).chain in
        chain.tail ≡ length chain.entries) plans.now }
    requires one { AllByRecursion (λ p. BindOne p.items) plans.now }
    ensures cells { HaveNoLessRoom (C.cells cells.old) (C.cells cells.new) }
    ensures ready { OnOk result (AreReady (C.cells cells.new) plans.now) }
    ensures err { FailsOnly out_of_memory result }
    ensures frame { C.frame cells.new ≡ C.frame cells.old }
{
    for plan in plans {
        cells.ready(plan.at, &plan.items)?;
    }
    Ok(())
}

/// How many parts the publishes of the plans kill at most. `OutOfMemory` where no number is as large, and only there:
/// no memory holds as many blocks.
fn need_of<C: Cells>(cells: &C, plans: &[CellCommit]) -> Result<u64, Fault>
    requires { AllByRecursion (λ p. p.at < length (C.cells cells.now)) plans.now }
    ensures ok { IfOk result (λ need. need ≡ need_of (C.cells cells.now) plans.now) }
    ensures err { FailsOnly out_of_memory result }
    // A call wants memory for its count alone only where it kills more than 2^62 parts.
    ensures many { OnErr result (NUMBER < need_of (C.cells cells.now) plans.now) }
{
    let mut need = 0u64;
    for plan in plans {
        let most = cells.cell(plan.at).most_killed(&plan.items);
        need = need.saturating_add(most as u64);
    }
    // The greatest number stands for all that are no less.
    if need == u64::MAX {
        return Err(NoMemory::for_as_many(need).into());
    }
    Ok(need)
}

/// Makes all growths of a call, and gives what it appends, cell by cell, and how many parts that kills at most.
fn prepare<C: Cells>(
    alloc: Global,
    cells: &mut C,
    update: &Update,
    made: &Option<Handle>,
    hand: &mut Hand,
) -> Result<(Vec<CellCommit>, u64), Fault>
    requires can { CanReady (C.cells cells.old) hand.old update.now }
    requires made { made.now ≡ handle_made_by (C.cells cells.old) hand.old.ino update.now }
    ensures some_bytes { 0 < block_in (C.cells cells.old) }
    ensures runs { let runs = (taken_by (C.cells cells.old) hand.old update.now).runs in
        IfOk result (λ done. AreMaximal runs × (blocks_of runs ≡ numbers_of hand.old.data.blocks)) }
    ensures plans { IfOk result (λ done. done.0.items
        ≡ plans_by (C.cells cells.old) hand.old update.now) }
    ensures ready { IfOk result (λ done. AreReady (C.cells cells.new) done.0.items) }
    ensures need { IfOk result (λ done. done.1 ≡ need_of (C.cells cells.new) done.0.items) }
    ensures room { IfOk result (λ done. done.1 ≤ hand.new.data.room) }
    ensures blocks { IfOk result (λ done. AllByRecursion (λ p. HaveBlocks p.items
        (block_in (C.cells cells.old)) hand.new.data) done.0.items) }
    ensures few { IfOk result (λ done. sum_by (λ p. length p.items) done.0.items < 2 ^ 32) }
    ensures hand { HasNoLessRoom hand.old hand.new }
    ensures cells { HaveNoLessRoom (C.cells cells.old) (C.cells cells.new) }
    ensures err { FailsOnly out_of_memory result }
    ensures frame { C.frame cells.new ≡ C.frame cells.old }
{
    blocks_have_bytes(cells);
    let planned = planned_by(alloc, cells, update, made, hand)?;
    let plans = cell_plans(alloc, cells, planned)?;
    ready_cells(cells, &plans)?;
    let need = need_of(cells, &plans)?;
    hand.data.reserve(need)?;
    Ok((plans, need))
}

/// Makes a call ready that passed its check and holds the blocks and the log pages that it takes: makes every growth of
/// what follows, of the cells, and of the hand for the blocks that the call may set free, and settles its items.
///
/// `OutOfMemory`, with the hand, where a growth was refused: then nothing has changed but room. The time is that of the
/// items, of the blocks that were taken, and for each cut that of the runs of pages that it takes out, where no growth
/// moves anything.
/// Callers bring in the hand the blocks of the items' pages, in front, and the log pages.
pub fn ready_on<C: Cells>(
    alloc: Global,
    cells: &mut C,
    update: Update,
    hand: Hand,
) -> Result<Ready, (Fault, Hand)>
    requires can { CanReady (C.cells cells.old) hand update }
    requires pages { HasLogPages (C.cells cells.old) hand update }
    // A call is made ready over its cells: its plan's items, cell by cell in rising order.
    // Each cell gets its own items of the plan.
    // The blocks of the hand are maximal block runs in it.
    // Each cell has room for its items.
    // The hand has room for the blocks that may be set free.
    // The need is that of all cells together.
    // The handle of a new inode has the generation of its inode slot.
    ensures ok { IfOk result (λ ready. IsReadyBy (C.cells cells.old) hand update
        (C.cells cells.new) ready) }
    ensures hand { IfOk result (λ ready. HasNoLessRoom hand ready.hand) }
    // Where a growth is refused, the hand comes back, and nothing has changed except room.
    // The only error is `OutOfMemory`.
    ensures err { IfErr result
        (λ refused. (refused.0 ≡ out_of_memory) × HasNoLessRoom hand refused.1) }
    ensures cells { HaveNoLessRoom (C.cells cells.old) (C.cells cells.new) }
    ensures frame { C.frame cells.new ≡ C.frame cells.old }
{
    let made = made_by(cells, hand.ino(), &update);
    let mut hand = hand;
    let prepared = prepare(alloc, cells, &update, &made, &mut hand);
    match prepared {
        Ok((plans, need)) => Ok(Ready::new(alloc, update, made, plans, hand, need)),
        Err(fault) => Err((fault, hand)),
    }
}
