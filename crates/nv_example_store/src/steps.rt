//! The steps of a store: calls on the files that hold it.

ghost use Rattle.std.specs.Prelude.{◌≡◌, [], None, Some, true, false, IfOk};
ghost use Rattle.nv_base.specs.Memory.{out_of_memory};
ghost use Rattle.nv_base.specs.Names.{is_lawful_name, same_name};
ghost use Rattle.nv_base.specs.Refusals.{FailsOnly};
ghost use Rattle.nv_base.specs.declared.node.Kind.TheVariants as kind;
ghost use Rattle.nv_calls.specs.Refusals as nodes;
ghost use Rattle.nv_entry.specs.Index.{bound_to};
ghost use Rattle.nv_entry.specs.Tree.{names_under, root};
ghost use Rattle.nv_serial.specs.Serial.{copies_now};
ghost use Rattle.nv_effects.specs.Causes.{IsSnapCause};
ghost use Rattle.nv_example_store.specs.Faults.{IsBackupFault, IsForgetCause, IsPutCause, IsRemoveCause};
ghost use Rattle.nv_example_store.specs.Held.{BecomesBy, EmptiesBy, FindsBy, HasNoScratch, TidiesBy, bytes_at, is_path, keys_among};
ghost use Rattle.nv_example_store.specs.Keys.{may_be_key, scratch};
ghost use Rattle.nv_example_store.specs.Stored.{Steps, value_in};
ghost use Rattle.nv_example_store.specs.Values.{IsBackedUp, IsBackupValue, entries_at, forgotten_in, has_value, keys_of, put_in, removed_in, value_of};

use nv_base::Items;
use nv_entry::{BoundName, TreeNode};
use nv_files::{Bytes, Epoch, Fault, Files, Handle, Mode, Name, Path, root};
use std::alloc::Global;

/// The name under which a value is written before it takes a key's place. It is no key.
const SCRATCH: &[u8] = b"new value";

/// Whether a name is that one.
pub(crate) fn is_scratch(name: &[u8]) -> bool
    ensures { result ≡ same_name name.now scratch }
{
    name == SCRATCH
}

/// Whether bytes may be a key.
pub(crate) fn may_be_key(bytes: &[u8]) -> bool
    ensures { result ≡ may_be_key bytes.now }
{
    Name::check(bytes).is_ok() && !is_scratch(bytes)
}

/// Finds what a name of the root leads to.
fn find(files: &mut Files, name: &[u8]) -> Result<Option<Handle>, Fault>
    requires { is_lawful_name name.now ≡ true }
    ensures { Steps (FindsBy (λ s found. found ≡ bound_to name.now (names_under (copies_now s) root))
        (λ s why. why ≡ out_of_memory) result) files.old files.new }
{
    match files.lookup(root(), name) {
        Ok(file) => Ok(Some(file)),
        Err(fault) => match fault {
            Fault::Missing => Ok(None),
            other => Err(other),
        },
    }
}

/// Puts a value under a key.
pub(crate) fn put(files: &mut Files, key: &[u8], value: &[u8]) -> Result<(), Fault>
    requires { may_be_key key.now ≡ true }
    ensures { Steps (BecomesBy (λ _ old new. new ≡ put_in key.now value.now old)
        (IsPutCause key.now value.now) result) files.old files.new }
{
    let file = empty_scratch(files)?;
    files.write(file, 0, value)?;
    files.rename(root(), SCRATCH, root(), key)
}

/// The same handle.
fn same(file: &Handle) -> Handle
    ensures { result ≡ file.now }
{
    *file
}

/// An empty file under the name that is no key. An earlier put that was refused may have left one.
fn empty_scratch(files: &mut Files) -> Result<Handle, Fault>
    ensures { Steps (EmptiesBy result) files.old files.new }
{
    match find(files, SCRATCH)? {
        Some(file) => {
            files.size(same(&file), 0)?;
            Ok(file)
        }
        None => new_scratch(files),
    }
}

/// Makes that file, where there is none.
fn new_scratch(files: &mut Files) -> Result<Handle, Fault>
    ensures { Steps (λ s t. HasNoScratch s → EmptiesBy result s t) files.old files.new }
{
    let mode = Mode::checked(0o600).unwrap();
    files.create(root(), SCRATCH, mode)
}

/// Takes a key out.
pub(crate) fn remove(files: &mut Files, key: &[u8]) -> Result<(), Fault>
    requires { may_be_key key.now ≡ true }
    ensures { Steps (BecomesBy (λ _ old new.
        (has_value key.now old.entries ≡ true) × (new ≡ removed_in key.now old))
        (IsRemoveCause key.now) result) files.old files.new }
{
    files.unlink(root(), key)
}

/// The value of a key, if it has one.
pub(crate) fn get(alloc: Global, files: &mut Files, key: &[u8]) -> Result<Option<Bytes>, Fault>
    requires { may_be_key key.now ≡ true }
    ensures { Steps (FindsBy (λ s found. found ≡ value_of key.now (value_in s.plain).entries)
        (λ s why. why ≡ out_of_memory) result) files.old files.new }
{
    match find(files, key)? {
        Some(file) => {
            let value = whole_file(alloc, files, file)?;
            Ok(Some(value))
        }
        None => Ok(None),
    }
}

/// All bytes of a file.
fn whole_file(alloc: Global, files: &mut Files, file: Handle) -> Result<Bytes, Fault>
    ensures { Steps (FindsBy (λ s bytes. bytes ≡ nodes.bytes_of (copies_now s file))
        (λ s why. nodes.kind_of (copies_now s file) ≡ Some kind.File → why ≡ out_of_memory) result)
        files.old files.new }
{
    let stat = files.stat(same(&file))?;
    let mut bytes = vec![in alloc; 0; stat.size as usize]?;
    let count = files.read(file, 0, &mut bytes)?;
    bytes.truncate(count);
    Ok(Bytes::from_vec(bytes))
}

/// The keys in order.
pub(crate) fn keys(alloc: Global, files: &mut Files) -> Result<Items<Name>, Fault>
    ensures { Steps (FindsBy (λ s keys. keys ≡ keys_of (value_in s.plain).entries)
        (λ s why. why ≡ out_of_memory) result) files.old files.new }
{
    let names = files.list(root())?;
    keys_among(alloc, names.as_slice())
}

/// The names except the one that is no key.
fn keys_among(alloc: Global, names: &[BoundName]) -> Result<Items<Name>, Fault>
    ensures ok { IfOk result (λ keys. keys ≡ keys_among names.now) }
    ensures err { FailsOnly out_of_memory result }
{
    let mut keys = Vec::new(alloc);
    for bound in names {
        if !is_scratch(bound.name.bytes()) {
            keys.push(bound.name.copied(alloc)?)?;
        }
    }
    Ok(Items::from_vec(keys))
}

/// Makes a backup.
pub(crate) fn backup(files: &mut Files) -> Result<Epoch, Fault>
    ensures { Steps (BecomesBy IsBackedUp IsSnapCause result) files.old files.new }
{
    files.snap()
}

/// Lets a backup go.
pub(crate) fn forget(files: &mut Files, backup: Epoch) -> Result<(), Fault>
    ensures { Steps (BecomesBy (λ _ old new. new ≡ forgotten_in backup old)
        (λ s why. IsForgetCause backup (value_in s.plain).backups why) result)
        files.old files.new }
{
    files.drop_snap(backup)
}

/// The value of a key at a backup, if it had one.
pub(crate) fn get_at(
    alloc: Global,
    files: &mut Files,
    backup: Epoch,
    key: &[u8],
) -> Result<Option<Bytes>, Fault>
    requires { may_be_key key.now ≡ true }
    ensures { Steps (FindsBy (λ s found.
        IsBackupValue (value_in s.plain).backups backup key.now found)
        (λ s why. IsBackupFault backup (value_in s.plain).backups why) result) files.old files.new }
{
    let tree = files.show(backup)?;
    bytes_at(alloc, tree.as_slice(), key)
}

/// The bytes of the first node with this name in the root, if there is one.
fn bytes_at(alloc: Global, tree: &[TreeNode], key: &[u8]) -> Result<Option<Bytes>, Fault>
    ensures ok { IfOk result (λ found. found ≡ bytes_at key.now tree.now) }
    ensures err { FailsOnly out_of_memory result }
{
    for there in tree {
        if is_path(&there.path, key) {
            let bytes = Vec::from_slice(alloc, there.node.bytes.as_slice())?;
            return Ok(Some(Bytes::from_vec(bytes)));
        }
    }
    Ok(None)
}

/// Whether a path has one name, this one.
fn is_path(path: &Path, key: &[u8]) -> bool
    ensures { result ≡ is_path key.now path.now }
{
    match path.as_slice() {
        [name] => key == name.bytes(),
        _ => false,
    }
}

/// Releases what no entry and no backup needs, and cleans the log of the root.
pub(crate) fn tidy(files: &mut Files) -> Result<(), Fault>
    ensures { Steps (TidiesBy result) files.old files.new }
{
    files.drain(u64::MAX)?;
    files.clean_auto(root().ino)?;
    Ok(())
}
