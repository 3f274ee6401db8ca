//! Who tells lines: in which form, and what they write so.

use crate::command::Command;
use crate::counted::CountedWrite;
use crate::echo::{Echo, Telling};
use crate::fault::LineFault;
use crate::outbox::Outbox;
use nv_core::World;
use std::alloc::{AllocError, Global};

/// Tells what commands do, in one form.
pub trait CommandTeller {
    ghost use Rattle.std.specs.Prelude.{◌≡◌, ◌≢◌, [], OnOk, false};
    ghost use Rattle.nv_core.specs.Worlds.{Leads};
    ghost use Rattle.nv_script.specs.declared.command.Command.TheVariants.{Audit};
    ghost use Rattle.nv_script.specs.declared.trace.Trace.{Trace};
    ghost use Rattle.nv_script.specs.Play.{is_list, reports_of};
    ghost use Rattle.nv_script.specs.Trace.{ActsToldBy};

    ghost form: { Trace };

    /// Acts on a command that lists no tree and asks for no audit, and adds what is told of it.
    fn tell(
        &self,
        world: &mut World,
        number: u64,
        command: Command,
        out: &mut Vec<u8>,
    ) -> Result<(), AllocError>
        requires other { is_list command ≡ false }
        requires no_audit { command ≢ Audit }
        requires empty { out.old.items ≡ [] }
        ensures { OnOk result (Leads (λ m n. ActsToldBy (reports_of m) form number m command
            out.new.items n) world.old world.new) };
}

/// Plays lines, and tells them in one form.
pub trait LineTeller {
    ghost use Rattle.std.specs.Prelude.{◌≡◌, ◌<◌, ◌+◌, ◌-◌, ◌^◌, ◌++◌, [], OnOk, false, true};
    ghost use Rattle.nv_script.specs.declared.trace.Trace.{Trace};
    ghost use Rattle.nv_script.specs.Grammar.{is_skipped};
    ghost use Rattle.nv_script.specs.Results.{LineIs, failed_in_line};
    ghost use Rattle.nv_script.specs.Trace.{head_by};

    ghost form: { Trace };

    /// Adds what stands before the answers to the command in the line with this number.
    fn push_head(
        &self,
        echo: Echo,
        number: u64,
        line: &[u8],
        out: &mut Vec<u8>,
    ) -> Result<(), AllocError>
        requires { is_skipped line.now ≡ false }
        ensures { OnOk result (out.new.items
            ≡ out.old.items ++ head_by form echo number line.now) };

    /// Plays one line, which has no line end. A line that is skipped has nothing before its answers.
    ///
    /// What it writes is in `out` then, in place of what that held, except for what is sent before: the head, and the lines of a
    /// tree's nodes where the form tells them one by one.
    fn play_line<W: CountedWrite>(
        &self,
        alloc: Global,
        world: &mut Option<World>,
        line: &[u8],
        telling: Telling<'_>,
        out: &mut Vec<u8>,
        outbox: &mut Outbox,
        writer: &mut W,
    ) -> Result<(), LineFault>
        requires skipped { is_skipped line.now ≡ true → telling.head.now ≡ [] }
        requires failures { W.failed writer.old < 2 ^ 64 - 1 }
        ensures line { LineIs form telling.entry.number telling.entry.head.now result
            (record { written = W.contents writer.old; gathered = outbox.old })
            (record { written = W.contents writer.new; gathered = outbox.new })
            world.old line.now out.new.items world.new }
        ensures failed { W.failed writer.new ≡ W.failed writer.old + failed_in_line result }
        ensures same_writer { W.place writer.new ≡ W.place writer.old };
}
