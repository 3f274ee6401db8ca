//! The cell of one slot is read while nobody has its lock: by a look, by a visit of a call that only reads, by a show.

ghost use Rattle.std.specs.Prelude.{◌≡◌, ◌<◌, ℕ, Bool, List, Ok, [], false, is_ok, length, option_map, true};
ghost use Rattle.std.specs.Option.{ForSome};
ghost use Rattle.nv_base.specs.Memory.{out_of_memory};
ghost use Rattle.nv_base.specs.Refusals.{FailsOnly};
ghost use Rattle.nv_base.specs.declared.geometry.GeometryNumbers.{GeometryNumbers};
ghost use Rattle.nv_calls.specs.Locked.{handles};
ghost use Rattle.nv_calls.specs.Looks.{directories, handle_at, nothing_looked};
ghost use Rattle.nv_calls.specs.SlotList.{slots_in};
ghost use Rattle.nv_calls.specs.Updates.{blank_call, call_of};
ghost use Rattle.nv_calls.specs.Views.{is_visit};
ghost use Rattle.nv_cell.specs.Pages.{AreBytesOf};
ghost use Rattle.nv_machine.specs.Reads.{bytes_among};
ghost use Rattle.nv_machine.specs.World as machine;
ghost use Rattle.nv_machine.specs.World.{HandState, Running, empty_hand};
ghost use Rattle.nv_reader.specs.Nodes.{IsWhole};
ghost use Rattle.nv_reader.specs.Showing.{is_over, visited};
ghost use Rattle.nv_steps.specs.Reading.{IsInRangeIf, IsLookTurn, answer_of_view, once_shown, reading};
ghost use Rattle.nv_steps.specs.Turns.{IsEnd, IsMove};

use nv_base::{Epoch, Fault, Ino};
use nv_calls::{
    Call, LockedSlots, LookupResult, Update, View, directory, look_at, slots_of, view_on,
};
use nv_cell::InodeCell;
use nv_reader::Showing;
use std::alloc::Global;

/// Makes the next visit of a show, by the cell of its slot. Where there is no such slot, nothing is seen. `OutOfMemory` where
/// room was refused, and then the pin is to go.
pub fn show(
    alloc: Global,
    cell: Option<&InodeCell>,
    snapshot: Epoch,
    showing: Showing,
) -> Result<Showing, Fault>
    requires more { is_over showing ≡ false }
    // A show reads one inode a step at the snapshot's epoch, wherever the other parts are.
    ensures turn { (numbers : GeometryNumbers) (actor : ℕ) (h : HandState) (r : Running)
        → let ino = (visited showing.visits).ino in
        let lent = option_map (λ cell. cell.now.state) cell.entry in
        r.next ≡ machine.SnapshotOrCleaner (machine.Show snapshot showing)
        → IsInRangeIf numbers ino lent
        → ForSome lent (λ cell. IsWhole (bytes_among cell.blocks) snapshot cell)
        → IsMove numbers actor (reading ino r h (is_ok result) lent) h
        (once_shown snapshot result r) }
    ensures err { FailsOnly out_of_memory result }
{
    showing.visit(alloc, cell, snapshot)
}

/// Reads the node of a call that only reads, by the cell of its slot. This is the call's only step. Where there is no such
/// slot, the call is `Stale`.
pub fn visit(ino: Ino, cell: Option<&InodeCell>, call: Call) -> Result<View, Fault>
    requires visit { is_visit call ≡ true }
    requires ino { ino ≡ (handle_at (handles nothing_looked call) 0).ino }
    // A call that only reads is one turn, which is answered or refused as the machine says, wherever the other parts are.
    ensures turn { (numbers : GeometryNumbers) (actor : ℕ) (r : Running)
        → let lent = option_map (λ cell. cell.now.state) cell.entry in
        r.next ≡ machine.Visit → r.call ≡ call → r.slots ≡ []
        → IsInRangeIf numbers ino lent
        → ForSome lent (λ cell. AreBytesOf cell (bytes_among cell.blocks))
        → IsEnd numbers actor (reading ino r empty_hand (is_ok result) lent)
        (answer_of_view result) empty_hand }
{
    match cell {
        Some(cell) => view_on(ino, cell, call),
        None => Err(Fault::Stale),
    }
}

/// Looks up the names of a call in one of its directories, by the cell of its slot, beside what was found before. Gives what
/// the looks have found, and which of so many slots the call locks then. The first name may be refused here. What is wrong with
/// the second is told at the check.
pub fn look(
    inodes: u64,
    cell: Option<&InodeCell>,
    update: &Update,
    place: usize,
    before: &LookupResult,
) -> Result<(LookupResult, LockedSlots), Fault>
    requires place { place < length (directories (blank_call update.now)) }
    // A look tells what the names of its directory lead to, or is refused, wherever the other parts are.
    ensures turn { (numbers : GeometryNumbers) (actor : ℕ) (granted : Bool) (text : List ℕ)
        (r : Running) → let ino = (handle_at (directories (call_of update.now text)) place).ino in
        let lent = option_map (λ cell. cell.now.state) cell.entry in
        r.next ≡ machine.Look place → r.call ≡ call_of update.now text → r.looked ≡ before.now
        → numbers.inodes ≡ inodes → IsInRangeIf numbers ino lent
        → IsLookTurn numbers actor (reading ino r empty_hand granted lent) place result }
{
    let ino = directory(update, place).ino;
    match look_at(ino, cell, update, place, before) {
        Ok(looked) => {
            let slots = slots_of(inodes, None, update, &looked);
            Ok((looked, slots))
        }
        Err(fault) => Err(fault),
    }
}
