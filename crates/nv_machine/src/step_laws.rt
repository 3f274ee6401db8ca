//! Which parts of what is shared each kind of step is lent, and in which order a check tests its call, as the contracts of
//! functions that do nothing.

ghost use Rattle.std.specs.Prelude.{◌≡◌, ◌++◌, ◌∷◌, [], ℕ, Some, false, true};
ghost use Rattle.nv_calls.specs.AllCalls.{looked};
ghost use Rattle.nv_calls.specs.Rules.{first_rules, first_that_applies, looks_up, rules, second_rules};
ghost use Rattle.nv_machine.specs.CheckOrder.{bound_anew, number_rule, tests_of};
ghost use Rattle.nv_machine.specs.Frame.{lent};
ghost use Rattle.nv_machine.specs.Lenders.{IsLentByTable};
ghost use Rattle.nv_machine.specs.Reads.{copies};
ghost use Rattle.nv_machine.specs.Step.{ending_at, same_looked};
ghost use Rattle.nv_machine.specs.World.{HandState, Next, Running, Shared};

/// Each part of what is shared is lent to the kinds of steps that one table names, and to no other: a free list to those
/// that take blocks or give them, the pool to those that take a number or give one back, a cell to those that change a
/// log or what is kept of it, a slot's lock to those that lock and unlock, the book to those that number a commit, note
/// tails or records or change snapshots, and the commit lock to the first and the last step of a commit. What is not
/// lent stays as it is ([`crate::laws::one_step`]), and a cell that is lent is locked
/// ([`crate::laws::who_holds_what`]).
pub fn parts_are_lent_by_one_table()
    // Each part of what is shared is lent to the kinds of steps that a table names, and to no other.
    ensures { (next : Next) (cpus actor : ℕ) (r : Running)
        → IsLentByTable next (lent next cpus actor r) }
{}

/// A check refuses its call for the first rule of the calls' one list that applies
/// ([`nv_calls::rule_laws::the_first_rule_refuses`]), and behind all of these for want of a number. Where a name was bound
/// anew since the looks, the rules of the two names alone come before that.
pub fn checks_refuse_in_order()
    // A check refuses its call for the first rule that applies, and behind all for want of a number.
    ensures found { (block : ℕ) (s : Shared) (h : HandState) (r : Running)
        → same_looked (looked (copies s) r.call) r.looked ≡ true
        → tests_of (ending_at block s h r)
        ≡ first_that_applies (rules block (copies s) r.call ++ number_rule h r ∷ []) }
    // Where a name was bound anew, the rules of the names come first, and else the round has failed.
    ensures anew { (block : ℕ) (s : Shared) (h : HandState) (r : Running)
        → looks_up r.call ≡ true → same_looked (looked (copies s) r.call) r.looked ≡ false
        → ending_at block s h r ≡ Some (bound_anew (first_that_applies
        (first_rules (copies s) r.call ++ second_rules (copies s) r.call))) }
{}
