//! A call that changes nodes, from its looks to its end.

ghost use Rattle.std.specs.Prelude.{◌≡◌, ◌<◌, ◌≤◌, ◌+◌, ◌-◌, ◌^◌, ℕ, Bool, IfErr, IfOk, None, false, length};
ghost use Rattle.nv_alloc.specs.Hand.{blocks_of};
ghost use Rattle.nv_base.specs.Refusals.{KeepsOnErr};
ghost use Rattle.nv_calls.specs.Prepared.{makes};
ghost use Rattle.nv_base.specs.declared.fault.Fault.TheVariants.{Contended};
ghost use Rattle.nv_base.specs.declared.limits.TheConstants.{LOCK_ROUNDS};
ghost use Rattle.nv_sessions.specs.Asking.{turned_end, turned_in, turned_round};
ghost use Rattle.nv_sessions.specs.Refusing.{MayGiveUp, failed_by, failed_in, failed_round};
ghost use Rattle.nv_sessions.specs.Rounds.{IsEndedBy, IsRoundOf};
ghost use Rattle.nv_sessions.specs.Sessions.{IsChangedBy, IsGivenBack, SessionValue, answered, at_seat, with_held};
ghost use Rattle.nv_sessions.specs.Taken.{IsRoom};

use crate::cell_list::CellList;
use crate::change::{Change, ChangeEnd};
use crate::ending::{empty_hand, give_back};
use crate::guards::change_slots;
use crate::locked_parts::LockedParts;
use crate::looks::look_names;
use crate::names::{Blocks, Commits};
use crate::seat::Seat;
use crate::seen::{Seen, answer_to};
use crate::session::Session;
use nv_alloc::Hand;
use nv_base::{Fault, Ino, limits};
use nv_calls::{Answer, Receipt, Source, Update, slots_of};
use std::mem;
use std::sync::Wait;

/// Takes the number of a new inode into a hand, where the call makes one and one is free.
fn take_number<C: Commits, B: Blocks, R: Wait>(
    rt: &R,
    service: &LockedParts<C, B>,
    update: &Update,
    hand: &mut Hand,
) -> Option<Ino>
    requires none { hand.old.ino ≡ None }
    ensures none { makes update.now ≡ false → result ≡ None }
    ensures hand { hand.new ≡ record hand.old { ino = result } }
{
    match update {
        Update::Create { .. } | Update::Mkdir { .. } => {
            let ino = service.pool.lock(rt).take()?;
            hand.put_ino(ino);
            Some(ino)
        }
        _ => None,
    }
}

/// How a round of a call ends: with what the call has seen or why it is refused; or a name leads elsewhere than its look
/// found, and the call looks again.
#[derive(Debug, Drop)]
enum RoundEnd {
    Ends(Result<Seen, Fault>),
    BoundAnew(Update),
}

impl RoundEnd {
    /// By how the change ended. `nothing` is the answer of a change that commits nothing.
    fn of(end: Result<Receipt, ChangeEnd>, nothing: Answer) -> RoundEnd
        ensures ended { (opening : ℕ) (before after : SessionValue) (u : Update)
            → IsEndedBy opening before after u end → nothing ≡ answered None u
            → IsRoundOf opening before after u result }
        ensures reads { failed_round result ≡ failed_by end }
        ensures short { (turn : Bool) → turned_round result turn ≡ turned_end end turn }
    {
        match end {
            Ok(receipt) => RoundEnd::Ends(Ok(Seen::Committed(receipt))),
            Err(ChangeEnd::Answers) => RoundEnd::Ends(Ok(Seen::Other(nothing))),
            Err(ChangeEnd::Refuses(fault)) => RoundEnd::Ends(Err(fault)),
            Err(ChangeEnd::BoundAnew(update)) => RoundEnd::BoundAnew(update),
        }
    }
}

/// One round of a call: its looks, and then its change under the locks of the slots that these lead to. `number` is the
/// one that it has for a new inode.
fn round<C: Commits, B: Blocks, S: Source, R: Wait>(
    rt: &R,
    service: &LockedParts<C, B>,
    seat: &mut Seat<C, B>,
    list: &mut CellList,
    number: &Option<Ino>,
    update: Update,
    hand: Hand,
    source: &mut S,
) -> (Hand, RoundEnd)
    requires list { IsRoom list.old }
    requires number { makes update ≡ false → number.now ≡ None }
    requires parts { (0 < seat.old.commits.parts) × (0 < seat.old.blocks.parts) }
    requires blocks { seat.old.blocks.amount ≡ length (blocks_of hand) }
    requires failures { S.failed source.old < 2 ^ 64 - 1 }
    ensures list { IsRoom list.new }
    ensures commits_part { seat.new.commits.parts ≡ seat.old.commits.parts }
    ensures blocks_part { seat.new.blocks.parts ≡ seat.old.blocks.parts }
    ensures blocks { seat.new.blocks.amount ≡ length (blocks_of result.0) }
    ensures ended { IsRoundOf C.commit
        (at_seat seat.old.number seat.old.commits.amount seat.old.notes)
        (at_seat seat.new.number seat.new.commits.amount seat.new.notes) update result.1 }
    ensures reads { S.failed source.new ≡ S.failed source.old + failed_round result.1 }
    ensures short { seat.new.asking.turn ≡ turned_round result.1 seat.old.asking.turn }
{
    let nothing = answer_to(&update, None);
    let looked = match look_names(rt, service, &update) {
        Ok(looked) => looked,
        Err(fault) => return (hand, RoundEnd::Ends(Err(fault))),
    };
    let inodes = service.cells.len() as u64;
    let slots = slots_of(inodes, *number, &update, &looked);
    let change = Change {
        looked: &looked,
        update,
        hand,
    };
    let (hand, end) = change_slots(rt, service, seat, list, &slots, change, source);
    (hand, RoundEnd::of(end, nothing))
}

/// Round after round of a call, as long as a name leads elsewhere than its look found, and at most so many behind the
/// first. `Contended` where the last one too is overtaken. How many rounds were made stands last. `NoSpace` comes only where
/// a taking of blocks has asked each CPU's list.
/// A call is `NoSpace` only where a taking of its own fell short.
/// Only tested: a call that was overtaken in fewer goes on, and a contended one may be made again.
fn rounds<C: Commits, B: Blocks, S: Source, R: Wait>(
    rt: &R,
    service: &LockedParts<C, B>,
    seat: &mut Seat<C, B>,
    list: &mut CellList,
    left: u64,
    number: &Option<Ino>,
    update: Update,
    hand: Hand,
    source: &mut S,
) -> (Hand, Result<Seen, Fault>, u64)
    requires list { IsRoom list.old }
    requires few { left < LOCK_ROUNDS }
    requires number { makes update ≡ false → number.now ≡ None }
    requires parts { (0 < seat.old.commits.parts) × (0 < seat.old.blocks.parts) }
    requires blocks { seat.old.blocks.amount ≡ length (blocks_of hand) }
    requires failures { S.failed source.old < 2 ^ 64 - 1 }
    ensures list { IsRoom list.new }
    ensures commits_part { seat.new.commits.parts ≡ seat.old.commits.parts }
    ensures blocks_part { seat.new.blocks.parts ≡ seat.old.blocks.parts }
    ensures blocks { seat.new.blocks.amount ≡ length (blocks_of result.0) }
    ensures changed { IfOk result.1 (IsChangedBy C.commit
        (at_seat seat.old.number seat.old.commits.amount seat.old.notes)
        (at_seat seat.new.number seat.new.commits.amount seat.new.notes) update) }
    ensures same { KeepsOnErr result.1
        (at_seat seat.old.number seat.old.commits.amount seat.old.notes)
        (at_seat seat.new.number seat.new.commits.amount seat.new.notes) }
    // A call is `Contended` only after eight rounds that were overtaken.
    ensures err { IfErr result.1 (MayGiveUp update) }
    ensures all { IfErr result.1 (λ why. why ≡ Contended → result.2 ≡ left + 1) }
    ensures most { result.2 ≤ left + 1 }
    ensures reads { S.failed source.new ≡ S.failed source.old + failed_in result.1 }
    ensures short { seat.new.asking.turn ≡ turned_in result.1 seat.old.asking.turn }
{
    let (hand, end) = round(rt, service, seat, list, number, update, hand, source);
    match end {
        RoundEnd::Ends(result) => (hand, result, 1),
        RoundEnd::BoundAnew(_) if left == 0 => (hand, Err(Fault::Contended), 1),
        RoundEnd::BoundAnew(update) => {
            let (hand, result, made) = rounds(
                rt,
                service,
                seat,
                list,
                left - 1,
                number,
                update,
                hand,
                source,
            );
            (hand, result, made + 1)
        }
    }
}

impl<C: Commits, B: Blocks> Session<C, B> {
    /// Makes a call that changes nodes. The text of a write comes from the source. A call that commits nothing is answered
    /// and leaves what the session has seen; a refused one too.
    ///
    /// `Mismatch` of `Lists` where the hand still holds what no list took back of an earlier call.
    pub(crate) fn change<S: Source, R: Wait>(
        &mut self,
        rt: &R,
        service: &LockedParts<C, B>,
        update: Update,
        source: &mut S,
    ) -> Result<Seen, Fault>
        requires failures { S.failed source.old < 2 ^ 64 - 1 }
        ensures ok { IfOk result (IsChangedBy C.commit self.old self.new update) }
        ensures same { KeepsOnErr result (with_held self.new.held self.old) self.new }
        ensures held { IsGivenBack self.new.held }
        ensures err { IfErr result (MayGiveUp update) }
        ensures reads { S.failed source.new ≡ S.failed source.old + failed_in result }
    {
        let mine = &mut self.seat.blocks;
        empty_hand(rt, service, &mut self.hand, mine, &mut self.seat.giving)?;
        let spare = Hand::new(self.alloc, &service.geometry);
        let mut hand = mem::replace(&mut self.hand, spare);
        let number = take_number(rt, service, &update, &mut hand);
        let (mut hand, result, _) = rounds(
            rt,
            service,
            &mut self.seat,
            &mut self.list,
            limits::LOCK_ROUNDS - 1,
            &number,
            update,
            hand,
            source,
        );
        let mine = &mut self.seat.blocks;
        // What was refused stays in the hand, and refuses the session's next call.
        let _ = give_back(rt, service, &mut hand, mine, &mut self.seat.giving);
        mem::replace(&mut self.hand, hand).dismantle();
        result
    }
}
