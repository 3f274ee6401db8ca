//! What calls that only read find in the cell of an inode. Each is given the number of that inode, and a handle of
//! another is stale.

ghost use Rattle.std.specs.Prelude.{◌≡◌, ℕ, List, Err, MatchResult, IfOk, Some, is_some, option_map, true};
ghost use Rattle.nv_base.specs.Refusals.{FailsAsChecked};
ghost use Rattle.nv_cell.specs.Pages.{AreBytesOf};
ghost use Rattle.nv_calls.specs.Nodes.{IsOwnView, IsView, alone, cell_of, copies_by, nodes_by, view_refusal};
ghost use Rattle.nv_calls.specs.Refusals.{kind_of, look, lookup};
ghost use Rattle.nv_calls.specs.calls.Lookup.{lookup_refusal};
ghost use Rattle.nv_calls.specs.Views.{IsVisitRefusal, check_of, copy_of, is_list, is_lookup, is_read, is_stat, is_visit, node_of, stat_of, visit_grows};

use crate::wants::{want_directory, want_file, want_lawful};
use crate::{Answer, Call};
use nv_base::{Fault, Handle, Ino, Kind};
use nv_cell::{InodeCell, Stat};

/// What a call that only reads was answered, with that call and the version of the inode that it read. None is made
/// but by a read.
#[derive(Debug, Drop)]
pub struct View {
    call: Call,
    found: Answer,
    version: u64,
}

impl View {
    /// The call that was answered.
    pub fn call(&self) -> &Call
        ensures { result.now ≡ self.now.call }
    {
        &self.call
    }

    /// The answer.
    pub fn found(&self) -> &Answer
        ensures { result.now ≡ self.now.found }
    {
        &self.found
    }

    /// How many commits of the inode were published.
    pub fn version(&self) -> u64
        ensures { result ≡ self.now.version }
    {
        self.version
    }

    /// What the call found.
    pub fn into_found(self) -> Answer
        // What a view found is handed out as it is.
        ensures { result ≡ self.found }
    {
        self.found
    }
}

/// What the node under a handle of the cell's slot tells of itself, if there is one.
fn stat_in(cell: &InodeCell, handle: &Handle) -> Option<Stat>
    ensures { (bytes : ℕ → List ℕ) → result
        ≡ option_map stat_of (node_of bytes cell.now.state handle.now) }
{
    if handle.generation != cell.generation() {
        return None;
    }
    cell.stat()
}

/// The kind of the node under a handle of the cell's slot.
#[inline(always)]
pub(crate) fn kind_in(cell: &InodeCell, handle: &Handle) -> Option<Kind>
    ensures { (bytes : ℕ → List ℕ) → result
        ≡ kind_of (copy_of bytes cell.now.state handle.now) }
{
    if handle.generation != cell.generation() {
        return None;
    }
    cell.kind()
}

/// Whether there is a node under a handle of the cell's slot. Costs no look-up.
pub(crate) fn has_node(cell: &InodeCell, handle: &Handle) -> bool
    ensures { (bytes : ℕ → List ℕ) → result
        ≡ is_some (copy_of bytes cell.now.state handle.now) }
{
    handle.generation == cell.generation() && cell.has_kind()
}

/// The cell of an inode, if a handle is of that inode.
fn cell_at<'a>(ino: Ino, cell: &'a InodeCell, handle: &Handle) -> Option<&'a InodeCell>
    ensures { option_map (λ cell. cell.now) result ≡ cell_of (alone ino cell.now) handle.now.ino }
{
    if ino != handle.ino {
        return None;
    }
    Some(cell)
}

/// What the node under a handle tells of itself, by the cell of an inode: none where the handle is of another.
fn stat_at(ino: Ino, cell: &InodeCell, handle: &Handle) -> Option<Stat>
    ensures { (bytes : ℕ → List ℕ) → result
        ≡ option_map stat_of (nodes_by bytes (alone ino cell.now) handle.now) }
{
    stat_in(cell_at(ino, cell, handle)?, handle)
}

/// The kind of the node under a handle, by the cell of an inode.
fn kind_at(ino: Ino, cell: &InodeCell, handle: &Handle) -> Option<Kind>
    ensures { (bytes : ℕ → List ℕ) → result
        ≡ kind_of (copies_by bytes (alone ino cell.now) handle.now) }
{
    kind_in(cell_at(ino, cell, handle)?, handle)
}

/// What a name of a directory leads to, by the cell of an inode: nothing where the name isn't bound. Takes no memory.
///
/// `Stale` and `NotDirectory` of the handle, then `BadName`. The handle of another inode is `Stale`.
pub fn look_on(
    ino: Ino,
    cell: &InodeCell,
    dir: &Handle,
    name: &[u8],
) -> Result<Option<Handle>, Fault>
    // By the cell of an inode, a look finds what a name of a directory leads to.
    // A look is refused by the handle and then by the name.
    // A look in the handle of another inode is stale, whatever its generation.
    ensures { (bytes : ℕ → List ℕ) → result
        ≡ look (copies_by bytes (alone ino cell.now)) dir.now name.now }
{
    want_directory(kind_at(ino, cell, dir))?;
    want_lawful(name)?;
    Ok(cell.lookup(name))
}

/// What a name of a directory leads to, where it is bound.
fn find_at(ino: Ino, cell: &InodeCell, dir: &Handle, name: &[u8]) -> Result<Handle, Fault>
    ensures refusal { (bytes : ℕ → List ℕ)
        → lookup_refusal (copies_by bytes (alone ino cell.now)) dir.now name.now ≡ check_of result }
    ensures found { (bytes : ℕ → List ℕ) → IfOk result (λ to.
        lookup (copies_by bytes (alone ino cell.now)) dir.now name.now ≡ Some to) }
{
    let Some(to) = look_on(ino, cell, dir, name)? else {
        return Err(Fault::Missing);
    };
    Ok(to)
}

/// What a `Stat` tells of an inode, by its cell. `Stale` where it asks for another. Takes no memory.
pub fn stat_on(ino: Ino, cell: &InodeCell, call: Call) -> Result<View, Fault>
    requires { is_stat call ≡ true }
    // A view has its call, what the node under its handle answers, and the cell's version.
    // A call that only reads is refused as its check says.
    // A call with the handle of another inode is stale.
    ensures { (bytes : ℕ → List ℕ) → MatchResult result (IsView bytes ino cell.now call)
        (λ fault. view_refusal bytes ino cell.now call ≡ Err fault) }
{
    let Call::Stat { handle } = &call else {
        unreachable!()
    };
    let stat = stat_at(ino, cell, handle).ok_or(Fault::Stale)?;
    let found = Answer::Stat {
        kind: stat.kind,
        mode: stat.mode,
        size: stat.size,
        commit: stat.commit,
    };
    let version = cell.version();
    Ok(View {
        call,
        found,
        version,
    })
}

/// What a `Lookup` finds in the cell of an inode. `Stale` where it asks for another. Takes no memory.
pub fn lookup_on(ino: Ino, cell: &InodeCell, call: Call) -> Result<View, Fault>
    requires { is_lookup call ≡ true }
    ensures { (bytes : ℕ → List ℕ) → MatchResult result (IsView bytes ino cell.now call)
        (λ fault. view_refusal bytes ino cell.now call ≡ Err fault) }
{
    let Call::Lookup { dir, name } = &call else {
        unreachable!()
    };
    let to = find_at(ino, cell, dir, name.as_slice())?;
    let version = cell.version();
    Ok(View {
        call,
        found: Answer::Made(to),
        version,
    })
}

/// The names that a `List` finds in the cell of an inode. `Stale` where it asks for another, `OutOfMemory` where room
/// for them was refused.
pub fn list_on(ino: Ino, cell: &InodeCell, call: Call) -> Result<View, Fault>
    requires { is_list call ≡ true }
    ensures view { (bytes : ℕ → List ℕ) → IfOk result (IsView bytes ino cell.now call) }
    // A list or read that passes its check is refused for want of memory alone.
    ensures err { (bytes : ℕ → List ℕ)
        → FailsAsChecked (view_refusal bytes ino cell.now call) result }
{
    let Call::List { dir } = &call else {
        unreachable!()
    };
    want_directory(kind_at(ino, cell, dir))?;
    let names = cell.list()?;
    let version = cell.version();
    Ok(View {
        call,
        found: Answer::Names(names),
        version,
    })
}

/// The bytes that a `Read` finds in the cell of an inode. `Stale` where it asks for another, `OutOfMemory` where room
/// for them was refused. Costs the pages that it reads, and one look-up for each run of them.
pub fn read_on(ino: Ino, cell: &InodeCell, call: Call) -> Result<View, Fault>
    requires { is_read call ≡ true }
    // A read tells the bytes of the cell's own blocks.
    ensures own { IfOk result (IsOwnView ino cell.now call) }
    // The view of a read has its call, what the node answers, and the cell's version.
    ensures view { (bytes : ℕ → List ℕ) → AreBytesOf cell.now.state bytes
        → IfOk result (IsView bytes ino cell.now call) }
    ensures err { (bytes : ℕ → List ℕ)
        → FailsAsChecked (view_refusal bytes ino cell.now call) result }
{
    let Call::Read {
        file,
        offset,
        count,
    } = &call
    else {
        unreachable!()
    };
    want_file(kind_at(ino, cell, file))?;
    let bytes = cell.read(*offset, *count)?;
    let version = cell.version();
    Ok(View {
        call,
        found: Answer::Bytes(bytes),
        version,
    })
}

/// What a call that only reads finds in the cell of an inode, as the function of its kind gives it.
pub fn view_on(ino: Ino, cell: &InodeCell, call: Call) -> Result<View, Fault>
    requires { is_visit call ≡ true }
    // A call that only reads has its view, or is refused as its check says.
    // Where its check passes, a list or a read may want memory, and no other.
    ensures { (bytes : ℕ → List ℕ) → AreBytesOf cell.now.state bytes
        → MatchResult result (IsView bytes ino cell.now call)
        (IsVisitRefusal (view_refusal bytes ino cell.now call) (visit_grows call)) }
{
    match &call {
        Call::Read { .. } => read_on(ino, cell, call),
        Call::Stat { .. } => stat_on(ino, cell, call),
        Call::List { .. } => list_on(ino, cell, call),
        Call::Lookup { .. } => lookup_on(ino, cell, call),
        _ => unreachable!(),
    }
}
