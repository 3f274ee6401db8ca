//! What an inode is now, read by its index.

ghost use Rattle.std.specs.Prelude.{◌≡◌, ◌<◌, IfErr, IfOk, is_some, map, option_and_then, option_map, unwrap_or};
ghost use Rattle.nv_base.specs.Memory.{out_of_memory};
ghost use Rattle.nv_cell.specs.Cell.{log_of};
ghost use Rattle.nv_cell.specs.Reading.{IsIndexOf, named, stat_now};
ghost use Rattle.nv_entry.specs.Data.{mode_in, size_in};
ghost use Rattle.nv_entry.specs.Index.{bound_to, names_of};
ghost use Rattle.nv_entry.specs.Keys.{key_named};
ghost use Rattle.nv_entry.specs.Log.{value_now};
ghost use Rattle.nv_entry.specs.Node.{size_now};
ghost use Rattle.nv_entry.specs.Refs.{scan_ref};
ghost use Rattle.nv_entry.specs.Stored.{kind_in, stored};
ghost use Rattle.nv_log.specs.Chain.{log};
ghost use Rattle.nv_nindex.specs.NameIndex.{AreLawful, binding_of, lent};

use crate::{CellIndex, InodeCell, Stat};
use nv_base::{Fault, Handle, Kind, Mode, Name};
use nv_entry::{BoundName, Datum, Key, NameList, PartRef};
use nv_log::Chain;
use nv_nindex::Binding;
use std::alloc::Global;

impl InodeCell {
    /// What a name is bound to. Costs one look-up.
    /// Only tested: each of these readers takes one look-up for each thing that it tells.
    pub fn lookup(&self, name: &[u8]) -> Option<Handle>
        // What a name is bound to now is told.
        ensures { result ≡ bound_to name.now (names_of (log_of self.now.state)) }
    {
        bound_in(&self.index, name)
    }

    /// The kind that the log gives, and none where it gives none: so in an empty slot, and where its last entry is
    /// Gone. Costs one look-up.
    pub fn kind(&self) -> Option<Kind>
        // The kind alone and the size alone are told.
        ensures { result ≡ (stored self.now.state.block (log_of self.now.state)).kind }
    {
        kind_of(self.block, &self.chain, &self.index)
    }

    /// Whether the log gives a kind. Costs no look-up.
    #[tactic(auto, using(crate::proofs::ValuesNow::kind_held))]
    pub fn has_kind(&self) -> bool
        // Whether there is a kind is told.
        ensures { result ≡ is_some (stored self.now.state.block (log_of self.now.state)).kind }
    {
        self.index.kind().is_some()
    }

    /// How many bytes a file has; 0 where there is none. Costs one look-up.
    pub fn size(&self) -> u64
        ensures { result ≡ size_now self.now.state.block (log_of self.now.state) }
    {
        size_of(self.block, &self.chain, &self.index)
    }

    /// Kind, mode, size, and the last commit that changed the inode; none where the log gives no kind. Costs one
    /// look-up for each of the first three.
    pub fn stat(&self) -> Option<Stat>
        // Kind, mode, size and last commit now are told, and none where the log gives no kind.
        ensures { result ≡ stat_now self.now.state.block (log_of self.now.state) }
    {
        stat_of(self.block, &self.chain, &self.index)
    }

    /// The names with their handles, in the order of the log. `OutOfMemory` where room for them was refused.
    pub fn list(&self) -> Result<NameList, Fault>
        // The names with their handles are told in log order.
        ensures names { IfOk result (λ names. names ≡ names_of (log_of self.now.state)) }
        // The only error is `OutOfMemory`.
        ensures err { IfErr result (λ fault. fault ≡ out_of_memory) }
    {
        let bindings = self.index.names.list()?;
        self.chain.holds_together();
        copied(self.alloc, &bindings)
    }
}

/// What a name is bound to by an index.
fn bound_in(index: &CellIndex, name: &[u8]) -> Option<Handle>
    ensures { result
        ≡ option_map (λ binding. binding.to) (binding_of name.now index.now.names.names) }
{
    let binding = index.names.get(name)?;
    Some(binding.to)
}

/// The kind of the inode of a log, by the log's index.
fn kind_of(block: u64, chain: &Chain, index: &CellIndex) -> Option<Kind>
    requires block { 0 < block }
    requires index { IsIndexOf block (log chain.now.state) index.now }
    ensures { result ≡ (stored block (log chain.now.state)).kind }
{
    kind_by(value_by(block, chain, index.kind(), Key::Kind))
}

/// The size of the inode of a log, by the log's index.
pub(crate) fn size_of(block: u64, chain: &Chain, index: &CellIndex) -> u64
    requires block { 0 < block }
    requires index { IsIndexOf block (log chain.now.state) index.now }
    ensures { result ≡ size_now block (log chain.now.state) }
{
    size_by(value_by(block, chain, index.size(), Key::Size))
}

/// What the inode of a log tells of itself, by the log's index.
fn stat_of(block: u64, chain: &Chain, index: &CellIndex) -> Option<Stat>
    requires block { 0 < block }
    requires index { IsIndexOf block (log chain.now.state) index.now }
    ensures { result ≡ stat_now block (log chain.now.state) }
{
    let kind = kind_of(block, chain, index)?;
    let mode = mode_by(value_by(block, chain, index.mode(), Key::Mode));
    let size = size_of(block, chain, index);
    let last = chain.last_published()?;
    Some(Stat {
        kind,
        mode,
        size,
        commit: last.id.commit,
    })
}

/// The value of a key by the part that holds it.
#[tactic(auto, using(crate::proofs::ValuesNow::value_is))]
fn value_by(block: u64, chain: &Chain, part: Option<PartRef>, key: Key<'_>) -> Option<Datum>
    requires block { 0 < block }
    requires part { part ≡ scan_ref block (log chain.now.state) (key_named key) }
    ensures { result ≡ value_now block (log chain.now.state) (key_named key.entry) }
{
    // Ids rise along all entries, so that the one of this id stands in the log.
    chain.holds_together();
    let entry = chain.entry(part?.entry)?;
    entry.item.setting(block, key).value()
}

/// The kind that a value is.
fn kind_by(value: Option<Datum>) -> Option<Kind>
    ensures { result ≡ option_and_then kind_in value }
{
    match value {
        Some(Datum::Kind(kind)) => Some(kind),
        _ => None,
    }
}

/// The mode that a value is; 0 where it is none.
fn mode_by(value: Option<Datum>) -> Mode
    ensures { result ≡ unwrap_or (option_and_then mode_in value) 0 }
{
    match value.and_then(Datum::mode) {
        Some(mode) => mode,
        None => Mode::checked(0).unwrap(),
    }
}

/// The size that a value is; 0 where it is none.
fn size_by(value: Option<Datum>) -> u64
    ensures { result ≡ unwrap_or (option_and_then size_in value) 0 }
{
    value.and_then(Datum::size).unwrap_or(0)
}

/// The names with their handles, copied.
pub(crate) fn copied(alloc: Global, bindings: &[(&[u8], Binding)]) -> Result<NameList, Fault>
    requires { AreLawful (map lent bindings.now) }
    ensures names { IfOk result (λ names. names ≡ map named (map lent bindings.now)) }
    ensures err { IfErr result (λ fault. fault ≡ out_of_memory) }
{
    let mut names = Vec::with_capacity(alloc, bindings.len())?;
    for bound in bindings {
        let name = Name::read(alloc, bound.0)?;
        names.push_reserved(BoundName {
            name,
            to: bound.1.to,
        });
    }
    Ok(NameList::from_vec(names))
}
