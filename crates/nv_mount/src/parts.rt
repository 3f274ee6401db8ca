//! The pool and the book that a mount makes anew.

ghost use Rattle.std.specs.Prelude.{◌≡◌, ◌<◌, ◌≤◌, IfOk, length};
ghost use Rattle.std.specs.List.{list_all};
ghost use Rattle.nv_base.specs.Memory.{out_of_memory};
ghost use Rattle.nv_base.specs.Refusals.{FailsOnly};
ghost use Rattle.nv_audit.specs.Faults.{IsFaultless};
ghost use Rattle.nv_audit.specs.Image.{ImageValue};
ghost use Rattle.nv_audit.specs.Mounted.{book_anew, pool_anew, records_anew};
ghost use Rattle.nv_audit.specs.MountedLogs.{cut_tails};
ghost use Rattle.nv_mount.specs.Build.{is_slot_used};
ghost use Rattle.nv_mount.specs.Plan.{erased_in};
ghost use Rattle.nv_mount.specs.View.{IsSeen};

use crate::View;
use crate::logs::front_of;
use nv_alloc::InodePool;
use nv_audit::push_records_anew;
use nv_base::limits::NUMBER;
use nv_base::{Fault, Gen, Ino};
use nv_book::{Book, Record};
use std::alloc::Global;

/// The pool: the numbers of all slots that are not in use once the logs are cut there, and these inodes erased.
pub(crate) fn pool_anew(
    alloc: Global,
    view: &View<'_>,
    tails: &[usize],
    ended: &[bool],
) -> Result<InodePool, Fault>
    requires { (image : ImageValue) × IsFaultless image × IsSeen image view.now
        × (tails.now ≡ cut_tails image) × (ended.now ≡ erased_in image) }
    // The pool has the numbers of slots without an inode, except those of the last generation.
    ensures ok { (image : ImageValue) → IsFaultless image → IsSeen image view.now
        → tails.now ≡ cut_tails image → ended.now ≡ erased_in image
        → IfOk result (λ pool. pool ≡ pool_anew image) }
    ensures err { FailsOnly out_of_memory result }
{
    let mut numbers = Vec::new(alloc);
    for ino in 0..view.slots.len() {
        let slot = &view.slots[ino];
        if !is_slot_used(slot.generation, tails[ino], ended[ino]) {
            numbers.push(Ino::new(ino as u64))?;
        }
    }
    InodePool::rebuild(alloc, view.geometry, &numbers)
}

/// Whether the number of a slot is in use: its log has an entry, or its generation, one more if its inode is erased, is
/// the last.
fn is_slot_used(generation: Gen, tail: usize, ended: bool) -> bool
    requires { generation ≤ NUMBER }
    ensures { result ≡ is_slot_used generation tail ended }
{
    if ended {
        return generation.number() + 1 >= NUMBER;
    }
    tail > 0 || generation.number() >= NUMBER
}

/// The book: the living snapshots, none of them pinned, with the records of the logs that are cut there.
pub(crate) fn book_anew(alloc: Global, view: &View<'_>, tails: &[usize]) -> Result<Book, Fault>
    requires { (image : ImageValue) × IsFaultless image × IsSeen image view.now
        × (tails.now ≡ cut_tails image) }
    // The book has the living snapshots, none pinned, and the records anew.
    ensures ok { (image : ImageValue) → IsFaultless image → IsSeen image view.now
        → tails.now ≡ cut_tails image → IfOk result (λ book. book.state ≡ book_anew image) }
    ensures err { FailsOnly out_of_memory result }
{
    let records = records_anew(alloc, view, tails)?;
    let need = records.len() as u64;
    let mut book = Book::rebuild(
        alloc,
        view.geometry,
        view.snapshots,
        view.epoch,
        view.commit,
        need,
    )?;
    book.retire_all(&records);
    Ok(book)
}

/// The records of all logs, by rising slot and then in log order.
fn records_anew(alloc: Global, view: &View<'_>, tails: &[usize]) -> Result<Vec<Record>, Fault>
    requires { (image : ImageValue) × IsFaultless image × IsSeen image view.now
        × (tails.now ≡ cut_tails image) }
    ensures ok { (image : ImageValue) → IsFaultless image → IsSeen image view.now
        → tails.now ≡ cut_tails image → IfOk result (λ records. records.items ≡ records_anew image) }
    ensures err { FailsOnly out_of_memory result }
{
    let mut records = Vec::new(alloc);
    for ino in 0..view.slots.len() {
        let log = front_of(view, ino, tails[ino]);
        push_records_anew(
            alloc,
            &mut records,
            view.snapshots,
            Ino::new(ino as u64),
            &log,
        )?;
    }
    Ok(records)
}
