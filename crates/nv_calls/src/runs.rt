//! Runs of blocks, and the items that put pages in them.

ghost use Rattle.std.specs.Prelude.{◌≡◌, ◌+◌, ◌<◌, ◌≤◌, ◌^◌, ℕ, ◌∷◌, ◌++◌, [], IfNone, IfOk, OnOk, length, option_to_list, slice_index_or};
ghost use Rattle.std.specs.List.{AllByRecursion};
ghost use Rattle.nv_alloc.specs.Block.{numbers_of};
ghost use Rattle.nv_base.specs.declared.limits.TheConstants.{BLOCKS, FILE_PAGES};
ghost use Rattle.nv_entry.specs.Sound.{blocks_of, write_items};
ghost use Rattle.nv_calls.specs.Plan.{AreMaximal, block_runs_of};

use nv_alloc::BlockQueue;
use nv_base::BlockNo;
use nv_entry::{BlockRun, Item};
use std::alloc::{AllocError, Global};
use std::marker::Model;

/// Runs of blocks. The first lies in place, so that a list of one takes no memory: most calls take one run.
#[derive(Debug, Drop)]
pub struct RunList {
    first: Option<BlockRun>,
    others: Vec<BlockRun>,
}

impl Model for RunList {
    ghost use Rattle.std.specs.Prelude.{List, ◌++◌, option_to_list};
    ghost use Rattle.nv_entry.specs.declared.item.BlockRun.{BlockRun};

    ghost Value = { List BlockRun };

    ghost view = { λ r. option_to_list r.first ++ r.others.items };
}

impl RunList {
    fn new(alloc: Global) -> RunList
        ensures { result ≡ [] }
    {
        RunList {
            first: None,
            others: Vec::new(alloc),
        }
    }

    /// Takes out the last run.
    fn pop(&mut self) -> Option<BlockRun>
        ensures items { self.old ≡ self.new ++ option_to_list result }
        ensures none { IfNone result (self.new ≡ []) }
    {
        if self.others.is_empty() {
            return self.first.take();
        }
        self.others.pop()
    }

    fn push(&mut self, run: BlockRun) -> Result<(), AllocError>
        ensures { OnOk result (self.new ≡ self.old ++ run ∷ []) }
    {
        if self.first.is_none() && self.others.is_empty() {
            self.first = Some(run);
            return Ok(());
        }
        self.others.push(run)?;
        Ok(())
    }
}

/// Blocks in the order in which they were taken, as maximal runs of consecutive numbers.
pub fn runs_of(alloc: Global, blocks: &[BlockNo]) -> Result<RunList, AllocError>
    requires few { length blocks.now ≤ BLOCKS }
    requires small { (k : ℕ) → k < length blocks.now → slice_index_or blocks.now k 0 < 2 ^ 32 }
    // Blocks in the order taken are told as block runs.
    ensures runs { IfOk result (λ runs. runs ≡ block_runs_of blocks.now) }
    ensures blocks { IfOk result (λ runs. blocks_of runs ≡ blocks.now) }
    // The block runs are maximal.
    ensures maximal { IfOk result (λ runs. AreMaximal runs) }
{
    let mut runs = RunList::new(alloc);
    for block in blocks {
        add_block(&mut runs, *block)?;
    }
    Ok(runs)
}

/// The blocks of a queue in the order in which they were taken, as maximal runs of consecutive numbers.
pub(crate) fn runs_in(alloc: Global, queue: &BlockQueue) -> Result<RunList, AllocError>
    requires few { length queue.now.blocks ≤ BLOCKS }
    requires small { AllByRecursion (λ b. b.number < 2 ^ 32) queue.now.blocks }
    ensures runs { IfOk result (λ runs. runs ≡ block_runs_of (numbers_of queue.now.blocks)) }
    ensures blocks { IfOk result (λ runs. blocks_of runs ≡ numbers_of queue.now.blocks) }
    ensures maximal { IfOk result (λ runs. AreMaximal runs) }
{
    let mut runs = RunList::new(alloc);
    for block in queue.iter() {
        add_block(&mut runs, block.number())?;
    }
    Ok(runs)
}

/// One more block goes to the last run where it comes next, and else begins a run.
fn add_block(runs: &mut RunList, block: BlockNo) -> Result<(), AllocError>
    requires small { block < 2 ^ 32 }
    requires few { length (blocks_of runs.old) < BLOCKS }
    requires maximal { AreMaximal runs.old }
    ensures blocks { OnOk result (blocks_of runs.new
        ≡ blocks_of runs.old ++ block ∷ []) }
    ensures maximal { OnOk result (AreMaximal runs.new) }
{
    let Some(last) = runs.pop() else {
        runs.push(run_of_one(block))?;
        return Ok(());
    };
    if last.start.number() + u64::from(last.len) == block.number() {
        let start = last.start;
        let len = last.len + 1;
        runs.push(BlockRun { start, len })?;
        return Ok(());
    }
    runs.push(last)?;
    runs.push(run_of_one(block))?;
    Ok(())
}

fn run_of_one(block: BlockNo) -> BlockRun
    requires { block < 2 ^ 32 }
    ensures start { result.start ≡ block }
    ensures len { result.len ≡ 1 }
{
    BlockRun {
        start: block,
        len: 1,
    }
}

/// The items that put the pages from `first` on in the blocks of runs, one page a block.
pub(crate) fn write_items(
    alloc: Global,
    first: u32,
    runs: &RunList,
    size: u64,
) -> Result<Vec<Item>, AllocError>
    requires { first + length (blocks_of runs.now) ≤ FILE_PAGES }
    ensures { IfOk result (λ items. items.items ≡ write_items first runs.now size) }
{
    let mut items = Vec::new(alloc);
    let Some(run) = &runs.first else {
        add_items(&mut items, first, &runs.others, size)?;
        return Ok(items);
    };
    let page = first + run.len;
    let run = *run;
    items.push(Item::Write { first, run, size })?;
    add_items(&mut items, page, &runs.others, size)?;
    Ok(items)
}

/// Adds the items of runs whose pages go on from `first`.
fn add_items(
    items: &mut Vec<Item>,
    first: u32,
    runs: &[BlockRun],
    size: u64,
) -> Result<(), AllocError>
    requires { first + length (blocks_of runs.now) ≤ FILE_PAGES }
    ensures { OnOk result (items.new.items ≡ items.old.items ++ write_items first runs.now size) }
{
    let mut page = first;
    for run in runs {
        items.push(Item::Write {
            first: page,
            run: *run,
            size,
        })?;
        page += run.len;
    }
    Ok(())
}
