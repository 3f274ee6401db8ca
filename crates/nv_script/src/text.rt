//! The texts of replies and reports. Each line ends with LF; numbers are plain decimal.

ghost use Rattle.std.specs.Prelude.{◌≡◌, ◌++◌, IfOk, OnOk, codes, decimal, string_bytes};
ghost use Rattle.nv_base.specs.Texts.{bracketed, fault_text, script_fault_name};
ghost use Rattle.nv_script.specs.Texts.{answer_text, bound_text, cleaned_text, cleaning_name, counted_bytes, counts_text, handle_text, kind_text, letter, lists_lines, log_line, names_text, node_line, path_text, refused_line, reply_line, run_text, runs_text, snap_line, snaps_lines, space_line, told_line};
ghost use Rattle.std.specs.List.{flat_map};
ghost use Rattle.nv_machine.specs.World.{Done};
ghost use Rattle.nv_core.specs.Whole.{last_reply};
ghost use Rattle.nv_core.specs.Worlds.{told_by};

use crate::word::{push_escaped, push_number};
use nv_alloc::FreeRun;
use nv_base::{Fault, Handle, Items, Kind, Mode, Name, ScriptFaultKind};
use nv_cell::LogPageCounts;
use nv_core::{Answer, CallFault, LogCounts, Reply, SnapCounts, Snaps, Space, TreeNode};
use nv_entry::{BoundName, NodeCopy};
use std::alloc::{AllocError, Global};

/// The text of a fault: its number, its name and, in brackets, its fields.
pub fn fault_text(alloc: Global, fault: &Fault) -> Result<String, AllocError>
    // The text of each fault is its number, name and fields in brackets.
    ensures { IfOk result (λ text. string_bytes text ≡ fault_text fault.now) }
{
    format!(in alloc; "{fault}")
}

/// Adds the text of a fault. Each piece is pushed as it is, since a script may be refused line after line.
fn push_fault(out: &mut Vec<u8>, fault: &Fault) -> Result<(), AllocError>
    ensures { OnOk result (out.new.items ≡ out.old.items ++ fault_text fault.now) }
{
    out.extend_from_slice(fault.name().as_bytes())?;
    match fault {
        Fault::BadGeometry(field) => push_bracketed(out, field.name().as_bytes()),
        Fault::Mismatch(part) => push_bracketed(out, part.name().as_bytes()),
        Fault::BadImage(fault) => push_bracketed(out, fault.name().as_bytes()),
        Fault::ScriptFault(kind, line) => push_place(out, *line, *kind),
        _ => Ok(()),
    }
}

/// Adds the line and the kind of a fault in a script.
fn push_place(out: &mut Vec<u8>, line: u64, kind: ScriptFaultKind) -> Result<(), AllocError>
    ensures { OnOk result (out.new.items
        ≡ out.old.items ++ bracketed (decimal line ++ codes ", " ++ script_fault_name kind)) }
{
    push_labelled(out, b"(", line)?;
    out.extend_from_slice(b", ")?;
    out.extend_from_slice(kind.name().as_bytes())?;
    Ok(out.push(b')')?)
}

/// Adds a text in brackets.
fn push_bracketed(out: &mut Vec<u8>, text: &[u8]) -> Result<(), AllocError>
    ensures { OnOk result (out.new.items ≡ out.old.items ++ bracketed text.now) }
{
    out.push(b'(')?;
    out.extend_from_slice(text)?;
    Ok(out.push(b')')?)
}

/// Adds the line of a refusal.
pub fn push_refused(out: &mut Vec<u8>, fault: &Fault) -> Result<(), AllocError>
    ensures { OnOk result (out.new.items ≡ out.old.items ++ refused_line fault.now) }
{
    out.extend_from_slice(b"refused ")?;
    push_fault(out, fault)?;
    Ok(out.push(b'\n')?)
}

/// Adds a number behind a label.
pub fn push_labelled(out: &mut Vec<u8>, label: &[u8], number: u64) -> Result<(), AllocError>
    ensures { OnOk result (out.new.items ≡ out.old.items ++ (label.now ++ decimal number)) }
{
    out.extend_from_slice(label)?;
    push_number(out, number)
}

/// Adds how many bytes there are, and the bytes, if there are any.
fn push_counted_bytes(out: &mut Vec<u8>, bytes: &[u8]) -> Result<(), AllocError>
    ensures { OnOk result (out.new.items ≡ out.old.items ++ counted_bytes bytes.now) }
{
    let count = bytes.len();
    if count == 0 {
        return Ok(out.push(b'0')?);
    }
    push_number(out, count as u64)?;
    out.push(b' ')?;
    push_escaped(out, bytes)
}

/// Adds a handle.
pub fn push_handle(out: &mut Vec<u8>, handle: &Handle) -> Result<(), AllocError>
    ensures { OnOk result (out.new.items ≡ out.old.items ++ handle_text handle.now) }
{
    push_number(out, handle.ino.number())?;
    push_labelled(out, b".", handle.generation.number())
}

/// Adds the names of a directory, each on a line of its own behind what stands before.
fn push_bound(out: &mut Vec<u8>, names: &[BoundName]) -> Result<(), AllocError>
    ensures { OnOk result (out.new.items ≡ out.old.items ++ flat_map bound_text names.now) }
{
    for bound in names {
        out.push(b'\n')?;
        push_escaped(out, bound.name.bytes())?;
        out.push(b' ')?;
        push_handle(out, &bound.to)?;
    }
    Ok(())
}

/// The letter of a file, or of a directory.
fn letter(kind: Kind) -> &'static [u8]
    ensures { result.now ≡ letter kind }
{
    match kind {
        Kind::File => b"f",
        Kind::Dir => b"d",
    }
}

/// Adds the letter of a kind, and a mode.
fn push_mode(out: &mut Vec<u8>, kind: Kind, mode: Mode) -> Result<(), AllocError>
    ensures { OnOk result
        (out.new.items ≡ out.old.items ++ (letter kind ++ codes " " ++ decimal mode)) }
{
    out.extend_from_slice(letter(kind))?;
    push_labelled(out, b" ", u64::from(mode.bits()))
}

/// The name of a cleaning, between spaces.
fn cleaning(thorough: bool) -> &'static [u8]
    ensures { result.now ≡ codes " " ++ cleaning_name thorough ++ codes " " }
{
    if thorough {
        return b" thorough ";
    }
    b" fast "
}

/// Adds which cleaning was made, and how many entries and pages the log lost.
fn push_cleaned(
    out: &mut Vec<u8>,
    thorough: bool,
    entries: u64,
    pages: u64,
) -> Result<(), AllocError>
    ensures { OnOk result (out.new.items
        ≡ out.old.items ++ cleaned_text thorough entries pages) }
{
    push_labelled(out, cleaning(thorough), entries)?;
    push_labelled(out, b" ", pages)
}

/// Adds what an answer shows behind the word `done`.
fn push_answer(out: &mut Vec<u8>, answer: &Answer) -> Result<(), AllocError>
    ensures { OnOk result (out.new.items ≡ out.old.items ++ answer_text answer.now) }
{
    match answer {
        Answer::Made(handle) => {
            out.push(b' ')?;
            push_handle(out, handle)
        }
        Answer::Count(count) => push_labelled(out, b" ", *count),
        Answer::Nothing => Ok(()),
        Answer::Bytes(bytes) => {
            out.push(b' ')?;
            push_counted_bytes(out, bytes.as_slice())
        }
        Answer::Stat {
            kind,
            mode,
            size,
            commit,
        } => {
            out.push(b' ')?;
            push_mode(out, *kind, *mode)?;
            push_labelled(out, b" ", *size)?;
            push_labelled(out, b" ", commit.number())
        }
        Answer::Names(names) => {
            let names = names.as_slice();
            push_labelled(out, b" ", names.len() as u64)?;
            push_bound(out, names)
        }
        Answer::Snapshot(s) => push_labelled(out, b" ", s.number()),
        Answer::Tree(tree) => {
            out.push(b'\n')?;
            push_nodes(out, tree.as_slice())?;
            out.extend_from_slice(b"end")
        }
        Answer::Cleaned {
            thorough,
            entries,
            pages,
        } => push_cleaned(out, *thorough, *entries as u64, *pages as u64),
    }
}

/// Adds the line of an answer.
#[inline(always)]
fn push_done(out: &mut Vec<u8>, answer: &Answer) -> Result<(), AllocError>
    ensures { OnOk result (out.new.items ≡ out.old.items ++ reply_line (Done answer.now)) }
{
    out.extend_from_slice(b"done")?;
    push_answer(out, answer)?;
    Ok(out.push(b'\n')?)
}

/// Adds the line of a reply.
pub fn push_reply(out: &mut Vec<u8>, reply: &Reply) -> Result<(), AllocError>
    ensures { OnOk result
        (out.new.items ≡ out.old.items ++ told_line (told_by reply.now)) }
{
    match reply {
        Reply::Started => out.extend_from_slice(b"started\n"),
        Reply::Moved => out.extend_from_slice(b"moved\n"),
        Reply::Waits => out.extend_from_slice(b"waits\n"),
        Reply::Done(answer) => push_done(out, answer),
        Reply::Stopped => out.extend_from_slice(b"stopped\n"),
        Reply::Refused(fault) => push_refused(out, fault),
    }
}

/// Adds the line of the last reply of a whole call.
pub fn push_told(out: &mut Vec<u8>, told: &Result<Answer, CallFault>) -> Result<(), AllocError>
    ensures { OnOk result
        (out.new.items ≡ out.old.items ++ reply_line (last_reply told.now)) }
{
    match told {
        Ok(answer) => push_done(out, answer),
        Err(CallFault::Refused(fault)) => push_refused(out, fault),
        Err(CallFault::Waits) => out.extend_from_slice(b"waits\n"),
    }
}

/// Adds each name behind a `/`.
fn push_names(out: &mut Vec<u8>, names: &[Name]) -> Result<(), AllocError>
    ensures { OnOk result (out.new.items ≡ out.old.items ++ names_text names.now) }
{
    for name in names {
        out.push(b'/')?;
        push_escaped(out, name.bytes())?;
    }
    Ok(())
}

/// Adds a path: `/` for the root.
fn push_path(out: &mut Vec<u8>, path: &[Name]) -> Result<(), AllocError>
    ensures { OnOk result (out.new.items ≡ out.old.items ++ path_text path.now) }
{
    if path.is_empty() {
        return Ok(out.push(b'/')?);
    }
    push_names(out, path)
}

/// Adds a file's letter, mode and bytes, or a directory's letter and mode.
fn push_kind(out: &mut Vec<u8>, node: &NodeCopy) -> Result<(), AllocError>
    ensures { OnOk result (out.new.items
        ≡ out.old.items ++ kind_text node.now.kind node.now.mode node.now.bytes) }
{
    push_mode(out, node.kind, node.mode)?;
    match node.kind {
        Kind::File => {
            out.push(b' ')?;
            push_counted_bytes(out, node.bytes.as_slice())
        }
        Kind::Dir => Ok(()),
    }
}

/// Adds the line of a node at a path.
pub(crate) fn push_node(out: &mut Vec<u8>, path: &[Name], node: &NodeCopy) -> Result<(), AllocError>
    ensures { OnOk result (out.new.items
        ≡ out.old.items ++ node_line (record { path = path.now; node = node.now })) }
{
    push_path(out, path)?;
    out.push(b' ')?;
    push_kind(out, node)?;
    Ok(out.push(b'\n')?)
}

/// Adds the lines of nodes.
pub fn push_nodes(out: &mut Vec<u8>, nodes: &[TreeNode]) -> Result<(), AllocError>
    ensures { OnOk result (out.new.items ≡ out.old.items ++ flat_map node_line nodes.now) }
{
    for node in nodes {
        push_node(out, node.path.as_slice(), &node.node)?;
    }
    Ok(())
}

/// Adds the line of a living snapshot.
fn push_snap(out: &mut Vec<u8>, snap: &SnapCounts) -> Result<(), AllocError>
    ensures { OnOk result (out.new.items ≡ out.old.items ++ snap_line snap.now) }
{
    push_labelled(out, b"snap ", snap.snapshot.number())?;
    push_labelled(out, b" held ", snap.held)?;
    push_labelled(out, b" gain ", snap.gain)?;
    push_labelled(out, b" pins ", u64::from(snap.pins))?;
    Ok(out.push(b'\n')?)
}

/// Adds the lines of living snapshots.
fn push_living(out: &mut Vec<u8>, living: &[SnapCounts]) -> Result<(), AllocError>
    ensures { OnOk result (out.new.items ≡ out.old.items ++ flat_map snap_line living.now) }
{
    for snap in living {
        push_snap(out, snap)?;
    }
    Ok(())
}

/// Adds the epoch and the last commit, and the living snapshots.
pub(crate) fn push_snaps(out: &mut Vec<u8>, snaps: &Snaps) -> Result<(), AllocError>
    ensures { OnOk result (out.new.items ≡ out.old.items ++ snaps_lines snaps.now) }
{
    let living = snaps.living.as_slice();
    push_labelled(out, b"snaps ", living.len() as u64)?;
    push_labelled(out, b" epoch ", snaps.epoch.number())?;
    push_labelled(out, b" commit ", snaps.commit.number())?;
    out.push(b'\n')?;
    push_living(out, living)
}

/// Adds where the blocks are.
pub(crate) fn push_space(out: &mut Vec<u8>, space: &Space) -> Result<(), AllocError>
    ensures { OnOk result (out.new.items ≡ out.old.items ++ space_line space.now) }
{
    push_labelled(out, b"free ", space.free)?;
    push_labelled(out, b" chain ", space.chain)?;
    push_labelled(out, b" data ", space.data)?;
    push_labelled(out, b" pending ", space.pending)?;
    push_labelled(out, b" hand ", space.hand)?;
    Ok(out.push(b'\n')?)
}

/// Adds a run of free blocks by its ends, or one block by its number.
fn push_run(out: &mut Vec<u8>, run: &FreeRun) -> Result<(), AllocError>
    ensures { OnOk result (out.new.items ≡ out.old.items ++ run_text run.now) }
{
    push_labelled(out, b" ", run.first.number())?;
    if run.first == run.last {
        return Ok(());
    }
    push_labelled(out, b"-", run.last.number())
}

/// Adds the runs of one list.
fn push_runs(out: &mut Vec<u8>, runs: &[FreeRun]) -> Result<(), AllocError>
    ensures { OnOk result (out.new.items ≡ out.old.items ++ runs_text runs.now) }
{
    if runs.is_empty() {
        return out.extend_from_slice(b" -");
    }
    push_some(out, runs)
}

fn push_some(out: &mut Vec<u8>, runs: &[FreeRun]) -> Result<(), AllocError>
    ensures { OnOk result (out.new.items ≡ out.old.items ++ flat_map run_text runs.now) }
{
    for run in runs {
        push_run(out, run)?;
    }
    Ok(())
}

/// Adds the lines of the free lists.
pub(crate) fn push_lists(out: &mut Vec<u8>, lists: &[Items<FreeRun>]) -> Result<(), AllocError>
    ensures { OnOk result (out.new.items ≡ out.old.items ++ lists_lines lists.now) }
{
    for (cpu, runs) in lists.iter().enumerate() {
        push_labelled(out, b"cpu ", cpu as u64)?;
        push_runs(out, runs.as_slice())?;
        out.push(b'\n')?;
    }
    Ok(())
}

/// Adds the counts of the pages of a log.
fn push_counts(out: &mut Vec<u8>, pages: &[LogPageCounts]) -> Result<(), AllocError>
    ensures { OnOk result (out.new.items ≡ out.old.items ++ flat_map counts_text pages.now) }
{
    for page in pages {
        push_labelled(out, b" ", page.live as u64)?;
        push_labelled(out, b":", page.valid as u64)?;
    }
    Ok(())
}

/// Adds the line of a log.
pub(crate) fn push_log(out: &mut Vec<u8>, ino: u64, log: &LogCounts) -> Result<(), AllocError>
    ensures { OnOk result (out.new.items ≡ out.old.items ++ log_line ino log.now) }
{
    let pages = log.pages.as_slice();
    push_labelled(out, b"log ", ino)?;
    push_labelled(out, b" ", log.entries as u64)?;
    push_labelled(out, b" ", pages.len() as u64)?;
    push_counts(out, pages)?;
    Ok(out.push(b'\n')?)
}
