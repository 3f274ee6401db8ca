//! Marks of parts and slots of blocks close up where entries go.

ghost use Rattle.std.specs.Prelude.{◌≡◌, ℕ, ◌+◌, ◌-◌, ◌<◌, ◌≤◌, ◌++◌, [], None, false, if◌then◌else◌, drop, length, take, vec_capacity};
ghost use Rattle.std.specs.List.{AllByRecursion};
ghost use Rattle.std.specs.VecDeque.{deque_capacity};
ghost use Rattle.nv_entry.specs.Covered.{part_total};
ghost use Rattle.nv_log.specs.Chain.{gone_of, left_of, log};
ghost use Rattle.nv_cell.specs.Removal.{AreFlags, flags_of, part_flags, slot_flags};
ghost use Rattle.nv_cell.specs.Slots.{slot_total};

use crate::{Mark, Stays};
use nv_alloc::Block;
use nv_log::Chain;
use std::collections::VecDeque;
use std::mem;

/// Takes the items of a list as a queue.
fn queue_of<T>(items: &mut Vec<T>) -> VecDeque<T>
    ensures items { result.items ≡ items.old.items }
    ensures room { deque_capacity result ≡ vec_capacity items.old }
    ensures none { items.new.items ≡ [] }
{
    let alloc = *items.allocator();
    VecDeque::from_vec(mem::replace(items, Vec::new(alloc)))
}

/// Puts a queue's items into a list that has none.
fn put_back<T>(items: &mut Vec<T>, queue: VecDeque<T>)
    requires { items.old.items ≡ [] }
    ensures items { items.new.items ≡ queue.items }
    ensures room { vec_capacity items.new ≡ deque_capacity queue }
{
    mem::replace(items, queue.into_vec()).destroy_empty();
}

/// Lets the marks of the next parts go.
fn drop_marks(marks: &mut VecDeque<Mark>, count: usize)
    requires { count ≤ length marks.old.items }
    ensures marks { marks.new.items ≡ drop count marks.old.items }
    ensures room { deque_capacity marks.new ≡ deque_capacity marks.old }
{
    for _gone in 0..count {
        marks.pop_front();
    }
}

/// Lets the next slots go, which have no block.
fn drop_slots(slots: &mut VecDeque<Option<Block>>, count: usize)
    requires there { count ≤ length slots.old.items }
    requires none { AllByRecursion (λ block. block ≡ None) (take count slots.old.items) }
    ensures slots { slots.new.items ≡ drop count slots.old.items }
    ensures room { deque_capacity slots.new ≡ deque_capacity slots.old }
{
    for _gone in 0..count {
        match slots.pop_front() {
            Some(None) | None => {}
            Some(Some(_block)) => unreachable!(),
        }
    }
}

/// Passes the parts of the next entry, which has so many, with their slots: those that stay go to the back.
fn pass(marks: &mut VecDeque<Mark>, slots: &mut VecDeque<Option<Block>>, count: usize, stays: bool)
    requires marks_there { count ≤ length marks.old.items }
    requires slots_there { count - 1 ≤ length slots.old.items }
    requires none { stays ≡ false
        → AllByRecursion (λ block. block ≡ None) (take (count - 1) slots.old.items) }
    ensures marks { marks.new.items ≡ drop count marks.old.items
        ++ (if stays then take count marks.old.items else []) }
    ensures slots { slots.new.items ≡ drop (count - 1) slots.old.items
        ++ (if stays then take (count - 1) slots.old.items else []) }
    ensures marks_room { deque_capacity marks.new ≡ deque_capacity marks.old }
    ensures slots_room { deque_capacity slots.new ≡ deque_capacity slots.old }
{
    let slot_count = count.saturating_sub(1);
    if stays {
        marks.rotate_left(count);
        slots.rotate_left(slot_count);
    } else {
        drop_marks(marks, count);
        drop_slots(slots, slot_count);
    }
}

/// Leaves the marks and slots of the entries that stay. No memory is taken.
pub fn close_parts(
    marks: &mut Vec<Mark>,
    slots: &mut Vec<Option<Block>>,
    chain: &Chain,
    stays: Stays<'_>,
)
    requires flags { AreFlags stays chain.now.state }
    requires marks_there { length marks.old.items ≡ part_total (log chain.now.state) }
    requires slots_there { slot_total (log chain.now.state) ≤ length slots.old.items }
    requires none { AllByRecursion (λ block. block ≡ None)
        (gone_of (slot_flags (flags_of stays chain.now.state) (log chain.now.state))
        slots.old.items) }
    ensures marks { marks.new.items
        ≡ left_of (part_flags (flags_of stays.entry chain.now.state) (log chain.now.state))
        marks.old.items }
    ensures slots { slots.new.items
        ≡ left_of (slot_flags (flags_of stays.entry chain.now.state) (log chain.now.state))
        slots.old.items }
    ensures marks_room { vec_capacity marks.new ≡ vec_capacity marks.old }
    ensures slots_room { vec_capacity slots.new ≡ vec_capacity slots.old }
{
    let mut mark_queue = queue_of(marks);
    let mut slot_queue = queue_of(slots);
    chain.holds_together();
    // What the log's slots leave: those past the tail.
    let mut fresh = slot_queue.len();
    for i in 0..chain.tail() {
        let count = chain.entry_at(i).item.part_count() as usize;
        fresh -= count.saturating_sub(1);
        pass(&mut mark_queue, &mut slot_queue, count, stays.at(chain, i));
    }
    slot_queue.rotate_left(fresh);
    put_back(marks, mark_queue);
    put_back(slots, slot_queue);
}
