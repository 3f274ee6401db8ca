//! Trees whose lines are written while they are walked.

ghost use Rattle.std.specs.Prelude.{◌≡◌, ◌<◌, ◌+◌, ◌-◌, ◌^◌, [], IfErr, OnOk, Option, List, false};
ghost use Rattle.nv_core.specs.Worlds.{Shows};
ghost use Rattle.nv_entry.specs.declared.tree.TreeNode.{TreeNode};
ghost use Rattle.nv_machine.specs.World as machine;
ghost use Rattle.nv_script.specs.Play.{nodes_at};
ghost use Rattle.nv_script.specs.Results.{HandsLines, IsNotSent, ListBehind, ListIs, Sends, Sent, failed_in_line, failed_in_tree};
ghost use Rattle.nv_script.specs.Texts.{node_line};

use crate::counted::CountedWrite;
use crate::fault::LineFault;
use crate::outbox::Outbox;
use crate::text::{push_node, push_refused};
use nv_base::{Epoch, Fault, Name};
use nv_core::{NodeCopy, Sink, SinkFault, World};

/// Writes the line of each node, which it makes in a buffer that is lent to it. It keeps whether it took a node, how
/// often it failed for want of memory, and why it failed last.
/// A node whose line was sent counts as no failure.
#[derive(Drop)]
struct NodeLines<'a, W> {
    line: &'a mut Vec<u8>,
    outbox: &'a mut Outbox,
    writer: &'a mut W,
    has_begun: bool,
    starved: u64,
    fault: LineFault,
}

impl<'a, W: CountedWrite> Sink for NodeLines<'a, W> {
    ghost use Rattle.std.specs.Prelude.{◌≡◌, ◌+◌, ◌-◌, ◌^◌, Err, min, true};
    ghost use Rattle.nv_script.specs.Results.{IsNotSent, Sends, failed_in_line};
    ghost use Rattle.nv_script.specs.Texts.{node_line};

    ghost failed = { λ lines. min (W.failed lines.writer.now + lines.starved) (2 ^ 64 - 1) };

    ghost Takes = { λ old node new.
        Sends (record { written = W.contents old.writer.now; gathered = old.outbox.now })
        (record { written = W.contents new.writer.now; gathered = new.outbox.now }) (node_line node)
        × (new.has_begun ≡ true)
        × (new.writer.ghost_name ≡ old.writer.ghost_name)
        × (new.outbox.ghost_name ≡ old.outbox.ghost_name)
        × (W.failed new.writer.now ≡ W.failed old.writer.now)
        × (W.place new.writer.now ≡ W.place old.writer.now) };

    ghost Fails = { λ old node new.
        IsNotSent new.fault (record { written = W.contents old.writer.now; gathered = old.outbox.now })
        (record { written = W.contents new.writer.now; gathered = new.outbox.now }) (node_line node)
        × (new.writer.ghost_name ≡ old.writer.ghost_name)
        × (new.outbox.ghost_name ≡ old.outbox.ghost_name)
        × (W.failed new.writer.now ≡ W.failed old.writer.now + failed_in_line {A = Unit {0}} (Err new.fault))
        × (W.place new.writer.now ≡ W.place old.writer.now) };

    fn node(&mut self, path: &[Name], node: &NodeCopy) -> Result<(), SinkFault> {
        match write_node(self.line, self.outbox, self.writer, path, node) {
            Ok(()) => {
                self.has_begun = true;
                Ok(())
            }
            Err(fault) => {
                self.fault = fault;
                if !matches!(fault, LineFault::Write) {
                    self.starved += 1;
                }
                Err(SinkFault)
            }
        }
    }

    fn failures(&self) -> u64 {
        self.writer.failures().saturating_add(self.starved)
    }
}

/// Writes the line of a node at a path. It is made in `line`.
fn write_node<W: CountedWrite>(
    line: &mut Vec<u8>,
    outbox: &mut Outbox,
    writer: &mut W,
    path: &[Name],
    node: &NodeCopy,
) -> Result<(), LineFault>
    requires { W.failed writer.old < 2 ^ 64 - 1 }
    ensures ok { OnOk result
        (Sends (record { written = W.contents writer.old; gathered = outbox.old })
        (record { written = W.contents writer.new; gathered = outbox.new })
        (node_line (record { path = path.now; node = node.now }))) }
    ensures err { IfErr result (λ why.
        IsNotSent why (record { written = W.contents writer.old; gathered = outbox.old })
        (record { written = W.contents writer.new; gathered = outbox.new })
        (node_line (record { path = path.now; node = node.now }))) }
    ensures failed { W.failed writer.new ≡ W.failed writer.old + failed_in_line result }
    ensures same_writer { W.place writer.new ≡ W.place writer.old }
{
    line.clear();
    push_node(line, path, node)?;
    Ok(outbox.add(writer, line.as_slice())?)
}

/// Writes a head, and behind it the lines of a tree.
pub(crate) fn write_tree_behind<W: CountedWrite>(
    head: &[u8],
    world: &World,
    snapshot: Option<Epoch>,
    out: &mut Vec<u8>,
    outbox: &mut Outbox,
    writer: &mut W,
) -> Result<(), LineFault>
    requires { W.failed writer.old < 2 ^ 64 - 1 }
    ensures lines { (m : machine.World) → Shows world.now m
        → ListBehind head.now result (record { written = W.contents writer.old; gathered = outbox.old })
        (record { written = W.contents writer.new; gathered = outbox.new })
        out.new.items (nodes_at m snapshot) }
    ensures failed { W.failed writer.new ≡ W.failed writer.old + failed_in_line result }
    ensures same_writer { W.place writer.new ≡ W.place writer.old }
{
    let Ok(()) = outbox.add(writer, head) else {
        return Err(LineFault::Write);
    };
    write_tree(world, snapshot, out, outbox, writer)
}

/// Writes the lines of a tree, of the one now or of a snapshot. The last line is left in `out`, or the one of a refusal.
fn write_tree<W: CountedWrite>(
    world: &World,
    snapshot: Option<Epoch>,
    out: &mut Vec<u8>,
    outbox: &mut Outbox,
    writer: &mut W,
) -> Result<(), LineFault>
    requires { W.failed writer.old < 2 ^ 64 - 1 }
    ensures lines { (m : machine.World) → Shows world.now m
        → ListIs result (record { written = W.contents writer.old; gathered = outbox.old })
        (record { written = W.contents writer.new; gathered = outbox.new })
        out.new.items (nodes_at m snapshot) }
    ensures failed { W.failed writer.new ≡ W.failed writer.old + failed_in_line result }
    ensures same_writer { W.place writer.new ≡ W.place writer.old }
{
    let mut lines = NodeLines {
        line: out,
        outbox,
        writer,
        has_begun: false,
        starved: 0,
        fault: LineFault::Write,
    };
    let handed = hand(world, snapshot, &mut lines);
    let (has_begun, why) = (lines.has_begun, lines.fault);
    out.clear();
    end(handed, has_begun, why, out)
}

/// Hands the nodes of a tree to such a sink, which has the same outbox and the same writer after it.
fn hand<'a, W: CountedWrite>(
    world: &World,
    snapshot: Option<Epoch>,
    lines: &mut NodeLines<'a, W>,
) -> Result<(), Fault>
    requires failures { W.failed lines.old.writer.now < 2 ^ 64 - 1 }
    requires starved { lines.old.starved ≡ 0 }
    requires begun { lines.old.has_begun ≡ false }
    ensures same_outbox { lines.new.outbox.ghost_name ≡ lines.old.outbox.ghost_name }
    ensures same_writer { lines.new.writer.ghost_name ≡ lines.old.writer.ghost_name }
    ensures lines { (m : machine.World) → Shows world.now m
        → HandsLines result lines.new.has_begun lines.new.fault (nodes_at m snapshot)
        (record { written = W.contents lines.old.writer.now; gathered = lines.old.outbox.now })
        (record { written = W.contents lines.new.writer.now; gathered = lines.new.outbox.now }) }
    ensures failed { W.failed lines.new.writer.now
        ≡ W.failed lines.old.writer.now + failed_in_tree result lines.new.fault }
    ensures same { W.place lines.new.writer.now ≡ W.place lines.old.writer.now }
{
    match snapshot {
        Some(snapshot) => world.snap_tree_to(snapshot, lines),
        None => world.tree_to(lines),
    }
}

/// What is left of the text, once the nodes were handed on: the last line, or the one of a refusal before the first node.
fn end(
    handed: Result<(), Fault>,
    has_begun: bool,
    why: LineFault,
    out: &mut Vec<u8>,
) -> Result<(), LineFault>
    requires { out.old.items ≡ [] }
    ensures lines { (nodes : Option (List TreeNode)) (old new : Sent)
        → HandsLines handed has_begun why nodes old new → ListIs result old new out.new.items nodes }
    ensures failed { failed_in_line result ≡ failed_in_tree handed why }
{
    match handed {
        Ok(()) => Ok(out.extend_from_slice(b"end\n")?),
        Err(Fault::Write) => Err(why),
        Err(Fault::OutOfMemory(witness)) if has_begun => Err(LineFault::OutOfMemory(witness)),
        Err(fault) => Ok(push_refused(out, &fault)?),
    }
}
