//! An inode number is taken from the pool, or goes back.

ghost use Rattle.std.specs.Prelude.{◌≡◌, ℕ, ◌<◌, None, false};
ghost use Rattle.std.specs.Option.{ForSome};
ghost use Rattle.nv_alloc.specs.Numbers.{has};
ghost use Rattle.nv_base.specs.declared.geometry.GeometryNumbers.{GeometryNumbers};
ghost use Rattle.nv_machine.specs.World as machine;
ghost use Rattle.nv_machine.specs.World.{Running};
ghost use Rattle.nv_steps.specs.Hands.{hand_of};
ghost use Rattle.nv_steps.specs.LastSteps.{IsLast};
ghost use Rattle.nv_steps.specs.OnPool.{on_pool, once_numbered};
ghost use Rattle.nv_steps.specs.Turns.{IsMove};

use nv_alloc::{Hand, InodePool};
use nv_base::Ino;

/// Takes the lowest free number into the hand, and tells it. That there is none refuses the call at its check.
pub fn take_number(pool: &mut InodePool, hand: &mut Hand) -> Option<Ino>
    requires none { hand.old.ino ≡ None }
    // A call whose inode is new takes the lowest free number, wherever the other parts are.
    ensures turn { (numbers : GeometryNumbers) (actor : ℕ) (r : Running) → r.next ≡ machine.Number
        → IsMove numbers actor (on_pool r (hand_of hand.old) pool.old pool.new) (hand_of hand.new)
        (once_numbered numbers.inodes result r) }
    // The hand has the number, if there was one.
    ensures hand { hand.new ≡ record hand.old { ino = result } }
{
    let number = pool.take();
    if let Some(ino) = number {
        hand.put_ino(ino);
    }
    number
}

/// Gives the number in the hand back.
pub fn return_number(pool: &mut InodePool, hand: &mut Hand)
    requires inode { ForSome hand.old.ino (λ ino. ino < pool.old.inodes) }
    requires absent { ForSome hand.old.ino (λ ino. has pool.old.numbers ino ≡ false) }
    // The number in a hand goes back once, which is the last step of its call, or of a record of a drain, wherever the
    // other parts are.
    ensures turn { (numbers : GeometryNumbers) (actor : ℕ) (r : Running)
        → r.next ≡ machine.ReturnNumber
        → IsLast numbers actor (on_pool r (hand_of hand.old) pool.old pool.new) r.ending
        (hand_of hand.new) }
    // The hand has no number any more.
    ensures hand { hand.new ≡ record hand.old { ino = None } }
{
    if let Some(ino) = hand.take_ino() {
        pool.give(ino);
    }
}
