//! The order of refusals, as the contract of a function that does nothing.

ghost use Rattle.std.specs.Prelude.{◌≡◌, ◌++◌, ℕ, Option, true};
ghost use Rattle.nv_base.specs.declared.numbers.Handle.{Handle};
ghost use Rattle.nv_entry.specs.declared.node.NodeCopy.{NodeCopy};
ghost use Rattle.nv_calls.specs.AllCalls.{early, look_refusal, refusal};
ghost use Rattle.nv_calls.specs.Rules.{first_rules, first_that_applies, looks_up, rules, second_rules};
ghost use Rattle.nv_calls.specs.declared.call.Call.{Call};

/// A call is refused for the first rule of one list that applies, whichever call it is: a stale handle, a handle of the
/// wrong kind, an unlawful name, a name that is missing, the same of a second directory and its name, a name that
/// exists, then what is wrong with the node that a name leads to, and last a write and a file that are too big. Of a
/// call that looks names up, a look goes by the rules of the first name, and the check by those of both names before it
/// compares what the names are bound to.
pub fn the_first_rule_refuses()
    // The first rule that applies, of one list for all calls, refuses a call.
    ensures all { (block : ℕ) (nodes : Handle → Option NodeCopy) (call : Call)
        → refusal block nodes call ≡ first_that_applies (rules block nodes call) }
    // A look goes by the rules of the first name.
    ensures looks { (nodes : Handle → Option NodeCopy) (call : Call) → looks_up call ≡ true
        → look_refusal nodes call ≡ first_that_applies (first_rules nodes call) }
    // A check goes by the rules of both names before it compares what they are bound to.
    ensures early { (nodes : Handle → Option NodeCopy) (call : Call) → looks_up call ≡ true
        → early nodes call
        ≡ first_that_applies (first_rules nodes call ++ second_rules nodes call) }
{}
