//! Which lists a taking has asked.

ghost use Rattle.std.specs.Prelude.{◌≡◌, ◌+◌, ◌<◌, ◌≤◌, ◌%◌, IfOk, OnErr, OnOk, drop, length, min, not};
ghost use Rattle.nv_alloc.specs.FreeList.{IsHomeList};
ghost use Rattle.nv_base.specs.Refusals.{FailsOnlyWhere};
ghost use Rattle.nv_base.specs.declared.fault.Fault.TheVariants as fault;
ghost use Rattle.nv_base.specs.declared.fault.MismatchPart.TheVariants as part;
ghost use Rattle.nv_sessions.specs.Asking.{next_list};
ghost use Rattle.nv_sessions.specs.Changing.{HasTaken};

use crate::list::LockedList;
use crate::names::Blocks;
use nv_alloc::BlockQueue;
use nv_base::{Fault, Geometry, MismatchPart};
use std::sync::ledger::Share;

/// How many lists the last taking of a seat has asked, in turn from that of its CPU on; and a turn, which is another one
/// each time that a taking has asked all of them and falls short. No other module reaches the fields, and nobody can copy
/// them: so whoever says that blocks are short has asked each list for them.
/// Only a list that was asked counts as asked.
#[derive(Drop)]
pub(crate) struct Asking {
    turn: bool,
    first: u64,
    asked: u64,
}

impl Asking {
    /// Of a seat that has asked no list.
    pub(crate) fn new() -> Asking {
        Asking {
            turn: false,
            first: 0,
            asked: 0,
        }
    }

    /// A taking of a seat begins: it has asked no list.
    pub(crate) fn begin(&mut self, geometry: &Geometry, seat: u64)
        ensures first { self.new.first ≡ seat % geometry.now.numbers.cpus }
        ensures asked { self.new.asked ≡ 0 }
        ensures turn { self.new.turn ≡ self.old.turn }
    {
        self.first = seat % geometry.numbers.cpus;
        self.asked = 0;
    }

    /// The CPU whose list is asked next.
    pub(crate) fn next_cpu(&self, geometry: &Geometry) -> u64
        requires first { self.now.first < geometry.now.numbers.cpus }
        requires more { self.now.asked < geometry.now.numbers.cpus }
        // The lists are asked in turn, that of the seat's CPU first, and then round.
        ensures cpu { result ≡ next_list geometry.now.numbers.cpus self.now }
        ensures within { result < geometry.now.numbers.cpus }
    {
        (self.first + self.asked) % geometry.numbers.cpus
    }

    /// Takes the lowest blocks of the next CPU's list, whose guard is held, at most so many, and says how many. The list is
    /// asked then. `Mismatch` of `Lists` where it is not that of the CPU.
    pub(crate) fn take_from<B: Blocks>(
        &mut self,
        geometry: &Geometry,
        cpu: u64,
        list: &mut LockedList<B>,
        wanted: u64,
        queue: &mut BlockQueue,
        mine: &mut Share<B>,
    ) -> Result<u64, Fault>
        requires next { cpu ≡ next_list geometry.now.numbers.cpus self.old }
        requires cpu { cpu < geometry.now.numbers.cpus }
        requires more { self.old.asked < geometry.now.numbers.cpus }
        requires room { wanted ≤ queue.old.room }
        requires size { queue.old.size ≡ geometry.now.numbers.block }
        requires part { 0 < mine.old.parts }
        // The CPU's own list gives the blocks of its lowest numbers.
        ensures count { IfOk result (λ n. n ≡ min wanted (length list.old.blocks)) }
        ensures taken { IfOk result (λ n. HasTaken n queue.old queue.new) }
        ensures list { OnOk result
            (list.new ≡ record list.old { blocks = drop wanted list.old.blocks }) }
        ensures parts { mine.new.parts ≡ mine.old.parts }
        ensures amount { IfOk result (λ n. mine.new.amount ≡ mine.old.amount + n) }
        ensures asked { OnOk result (self.new.asked ≡ self.old.asked + 1) }
        ensures first { self.new.first ≡ self.old.first }
        ensures turn { self.new.turn ≡ self.old.turn }
        ensures err { FailsOnlyWhere (fault.Mismatch part.Lists)
            (IsHomeList geometry.now.numbers cpu list.old → ⊥) result }
        ensures same { OnErr result ((queue.new ≡ queue.old) × (list.new ≡ list.old)
            × (mine.new.amount ≡ mine.old.amount)) }
    {
        geometry.home_ends_within(cpu);
        if !list.part().made_for(geometry, cpu) {
            return Err(Fault::Mismatch(MismatchPart::Lists));
        }
        self.asked += 1;
        Ok(list.take(wanted, queue, mine))
    }

    /// A taking falls short that has asked all lists.
    pub(crate) fn fall_short(&mut self, geometry: &Geometry)
        requires { self.old.asked ≡ geometry.now.numbers.cpus }
        // Only a taking that asked as many lists as there are CPUs falls short.
        ensures { self.new.turn ≡ not self.old.turn }
    {
        prove!(self.asked == geometry.numbers.cpus);
        self.turn = !self.turn;
    }
}
