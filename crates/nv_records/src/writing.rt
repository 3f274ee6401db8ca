//! Records written.

ghost use Rattle.std.specs.Prelude.{◌≡◌, ◌++◌, ◌∷◌, [], OnErr, OnOk};
ghost use Rattle.nv_records.specs.Appending.{HasFront};
ghost use Rattle.nv_records.specs.Fields.{handle, number, pair, string};
ghost use Rattle.nv_records.specs.Records.{bytes_of, call_bytes, snapshot_or_cleaner_bytes};

use crate::Record;
use nv_base::{Handle, Mode};
use nv_calls::{Call, SnapshotOrCleanerCall};
use std::alloc::AllocError;

#[tactic(auto, using(crate::proofs::Fronts::front_same))]
fn put_bytes(out: &mut Vec<u8>, bytes: &[u8]) -> Result<(), AllocError>
    ensures ok { OnOk result (out.new.items ≡ out.old.items ++ bytes.now) }
    ensures same { OnErr result (HasFront out.old.items out.new.items) }
{
    out.extend_from_slice(bytes)
}

#[tactic(auto, unfolding(crate::specs::Fields::number))]
fn put_number(out: &mut Vec<u8>, n: u64) -> Result<(), AllocError>
    ensures ok { OnOk result (out.new.items ≡ out.old.items ++ number n) }
    ensures same { OnErr result (HasFront out.old.items out.new.items) }
{
    put_bytes(out, &n.to_le_bytes())
}

/// Adds bytes with their length before them.
#[tactic(auto, using(crate::proofs::Fronts::front_before))]
fn put_string(out: &mut Vec<u8>, bytes: &[u8]) -> Result<(), AllocError>
    ensures ok { OnOk result (out.new.items ≡ out.old.items ++ string bytes.now) }
    ensures same { OnErr result (HasFront out.old.items out.new.items) }
{
    put_number(out, bytes.len() as u64)?;
    put_bytes(out, bytes)
}

#[tactic(auto, using(crate::proofs::Fronts::front_before))]
fn put_handle(out: &mut Vec<u8>, node: Handle) -> Result<(), AllocError>
    ensures ok { OnOk result (out.new.items ≡ out.old.items ++ handle node) }
    ensures same { OnErr result (HasFront out.old.items out.new.items) }
{
    put_number(out, node.ino.number())?;
    put_number(out, node.generation.number())
}

fn put_mode(out: &mut Vec<u8>, mode: Mode) -> Result<(), AllocError>
    ensures ok { OnOk result (out.new.items ≡ out.old.items ++ number mode) }
    ensures same { OnErr result (HasFront out.old.items out.new.items) }
{
    put_number(out, u64::from(mode.bits()))
}

#[tactic(auto, using(crate::proofs::Fronts::front_same))]
fn put_tag(out: &mut Vec<u8>, tag: u8) -> Result<(), AllocError>
    ensures ok { OnOk result (out.new.items ≡ out.old.items ++ tag ∷ []) }
    ensures same { OnErr result (HasFront out.old.items out.new.items) }
{
    Ok(out.push(tag)?)
}

/// Adds a tag and a number.
#[tactic(auto, using(crate::proofs::Fronts::front_before))]
fn put_numbered(out: &mut Vec<u8>, tag: u8, n: u64) -> Result<(), AllocError>
    ensures ok { OnOk result (out.new.items ≡ out.old.items ++ tag ∷ number n) }
    ensures same { OnErr result (HasFront out.old.items out.new.items) }
{
    put_tag(out, tag)?;
    put_number(out, n)
}

/// Adds a tag and the handle of a node.
#[tactic(auto, using(crate::proofs::Fronts::front_before))]
fn put_handled(out: &mut Vec<u8>, tag: u8, node: Handle) -> Result<(), AllocError>
    ensures ok { OnOk result (out.new.items ≡ out.old.items ++ tag ∷ handle node) }
    ensures same { OnErr result (HasFront out.old.items out.new.items) }
{
    put_tag(out, tag)?;
    put_handle(out, node)
}

/// Adds a directory and a name in it.
#[tactic(auto, using(crate::proofs::Fronts::front_before, crate::proofs::Fronts::two))]
fn put_name(out: &mut Vec<u8>, dir: Handle, name: &[u8]) -> Result<(), AllocError>
    ensures ok { OnOk result (out.new.items
        ≡ out.old.items ++ pair handle string (dir, name.now)) }
    ensures same { OnErr result (HasFront out.old.items out.new.items) }
{
    put_handle(out, dir)?;
    put_string(out, name)
}

/// Adds a tag, a directory and a name in it.
#[tactic(auto, using(crate::proofs::Fronts::front_before, crate::proofs::Fronts::two))]
fn put_named(out: &mut Vec<u8>, tag: u8, dir: Handle, name: &[u8]) -> Result<(), AllocError>
    ensures ok { OnOk result (out.new.items
        ≡ out.old.items ++ tag ∷ pair handle string (dir, name.now)) }
    ensures same { OnErr result (HasFront out.old.items out.new.items) }
{
    put_tag(out, tag)?;
    put_name(out, dir, name)
}

/// Adds a tag, a directory, a name in it and a mode.
#[tactic(auto, using(crate::proofs::Fronts::front_before, crate::proofs::Fronts::two))]
fn put_making(
    out: &mut Vec<u8>,
    tag: u8,
    dir: Handle,
    name: &[u8],
    mode: Mode,
) -> Result<(), AllocError>
    ensures ok { OnOk result (out.new.items
        ≡ out.old.items ++ tag ∷ pair (pair handle string) number ((dir, name.now), mode)) }
    ensures same { OnErr result (HasFront out.old.items out.new.items) }
{
    put_named(out, tag, dir, name)?;
    put_mode(out, mode)
}

/// Adds a tag, a node and a number.
#[tactic(auto, using(crate::proofs::Fronts::front_before, crate::proofs::Fronts::two))]
fn put_counted(out: &mut Vec<u8>, tag: u8, node: Handle, n: u64) -> Result<(), AllocError>
    ensures ok { OnOk result (out.new.items
        ≡ out.old.items ++ tag ∷ pair handle number (node, n)) }
    ensures same { OnErr result (HasFront out.old.items out.new.items) }
{
    put_handled(out, tag, node)?;
    put_number(out, n)
}

/// Adds a write.
#[tactic(auto, using(crate::proofs::Fronts::front_before, crate::proofs::Fronts::two))]
fn put_write(out: &mut Vec<u8>, file: Handle, offset: u64, text: &[u8]) -> Result<(), AllocError>
    ensures ok { OnOk result (out.new.items
        ≡ out.old.items ++ 3 ∷ pair (pair handle number) string ((file, offset), text.now)) }
    ensures same { OnErr result (HasFront out.old.items out.new.items) }
{
    put_counted(out, 3, file, offset)?;
    put_string(out, text)
}

/// Adds a read.
#[tactic(auto, using(crate::proofs::Fronts::front_before, crate::proofs::Fronts::two))]
fn put_read(out: &mut Vec<u8>, file: Handle, offset: u64, count: u64) -> Result<(), AllocError>
    ensures ok { OnOk result (out.new.items
        ≡ out.old.items ++ 4 ∷ pair (pair handle number) number ((file, offset), count)) }
    ensures same { OnErr result (HasFront out.old.items out.new.items) }
{
    put_counted(out, 4, file, offset)?;
    put_number(out, count)
}

/// Adds a change of a mode.
#[tactic(auto, using(crate::proofs::Fronts::front_before, crate::proofs::Fronts::two))]
fn put_set_mode(out: &mut Vec<u8>, node: Handle, mode: Mode) -> Result<(), AllocError>
    ensures ok { OnOk result (out.new.items
        ≡ out.old.items ++ 6 ∷ pair handle number (node, mode)) }
    ensures same { OnErr result (HasFront out.old.items out.new.items) }
{
    put_handled(out, 6, node)?;
    put_mode(out, mode)
}

/// Adds a rename.
#[tactic(auto, using(crate::proofs::Fronts::front_before, crate::proofs::Fronts::two))]
fn put_rename(
    out: &mut Vec<u8>,
    from: Handle,
    old: &[u8],
    to: Handle,
    new: &[u8],
) -> Result<(), AllocError>
    ensures ok { OnOk result (out.new.items
        ≡ out.old.items ++ 12 ∷ pair (pair handle string) (pair handle string) ((from, old.now), (to, new.now))) }
    ensures same { OnErr result (HasFront out.old.items out.new.items) }
{
    put_named(out, 12, from, old)?;
    put_name(out, to, new)
}

fn put_snapshot_or_cleaner(
    out: &mut Vec<u8>,
    what: &SnapshotOrCleanerCall,
) -> Result<(), AllocError>
    ensures ok { OnOk result (out.new.items
        ≡ out.old.items ++ snapshot_or_cleaner_bytes what.now) }
    ensures same { OnErr result (HasFront out.old.items out.new.items) }
{
    match *what {
        SnapshotOrCleanerCall::Snap => put_tag(out, 13),
        SnapshotOrCleanerCall::Drop(snapshot) => put_numbered(out, 14, snapshot.number()),
        SnapshotOrCleanerCall::Show(snapshot) => put_numbered(out, 15, snapshot.number()),
        SnapshotOrCleanerCall::Drain(count) => put_numbered(out, 16, count),
        SnapshotOrCleanerCall::Fast(ino) => put_numbered(out, 17, ino.number()),
        SnapshotOrCleanerCall::Thorough(ino) => put_numbered(out, 18, ino.number()),
        SnapshotOrCleanerCall::Auto(ino) => put_numbered(out, 19, ino.number()),
    }
}

fn put_call(out: &mut Vec<u8>, call: &Call) -> Result<(), AllocError>
    ensures ok { OnOk result (out.new.items ≡ out.old.items ++ call_bytes call.now) }
    ensures same { OnErr result (HasFront out.old.items out.new.items) }
{
    match call {
        Call::Create { dir, name, mode } => put_making(out, 1, *dir, name.as_slice(), *mode),
        Call::Mkdir { dir, name, mode } => put_making(out, 2, *dir, name.as_slice(), *mode),
        Call::Write { file, offset, text } => put_write(out, *file, *offset, text.as_slice()),
        Call::Read {
            file,
            offset,
            count,
        } => put_read(out, *file, *offset, *count),
        Call::Size { file, size } => put_counted(out, 5, *file, *size),
        Call::Mode { handle, mode } => put_set_mode(out, *handle, *mode),
        Call::Stat { handle } => put_handled(out, 7, *handle),
        Call::List { dir } => put_handled(out, 8, *dir),
        Call::Lookup { dir, name } => put_named(out, 9, *dir, name.as_slice()),
        Call::Unlink { dir, name } => put_named(out, 10, *dir, name.as_slice()),
        Call::Rmdir { dir, name } => put_named(out, 11, *dir, name.as_slice()),
        Call::Rename { from, old, to, new } => {
            put_rename(out, *from, old.as_slice(), *to, new.as_slice())
        }
        Call::SnapshotOrCleaner(what) => put_snapshot_or_cleaner(out, what),
    }
}

#[tactic(auto, using(crate::proofs::Fronts::front_before))]
fn put_record(out: &mut Vec<u8>, kept: &Record) -> Result<(), AllocError>
    ensures ok { OnOk result (out.new.items ≡ out.old.items ++ bytes_of kept.now) }
    ensures same { OnErr result (HasFront out.old.items out.new.items) }
{
    match kept {
        Record::Call(call) => put_call(out, call),
        Record::Stopped => put_tag(out, 20),
        Record::Note(text) => {
            put_tag(out, 21)?;
            put_string(out, text.as_slice())
        }
    }
}

/// Appends the bytes of a record, or nothing where memory is refused.
#[tactic(auto, unfolding(crate::specs::Appending::HasFront))]
pub fn append_record(out: &mut Vec<u8>, kept: &Record) -> Result<(), AllocError>
    // What is appended are the bytes of the record.
    ensures ok { OnOk result (out.new.items ≡ out.old.items ++ bytes_of kept.now) }
    // Where memory is refused, nothing is appended.
    ensures same { OnErr result (out.new.items ≡ out.old.items) }
{
    let len = out.len();
    let appended = put_record(out, kept);
    if appended.is_err() {
        out.truncate(len);
    }
    appended
}
