//! The way from the root down to the next visit of a walk.

ghost use Rattle.std.specs.Prelude.{◌≡◌, ◌≤◌, ℕ, [], IfOk, length, reverse};
ghost use Rattle.nv_reader.specs.Ways.{left_visits, visits_of};

use nv_base::{Handle, Name};
use nv_entry::{BoundName, NameList, Path};
use std::alloc::{AllocError, Global};

/// The names on the way down, and for each of them those of its directory that are to be followed after
/// it, the next one last.
#[derive(Drop)]
pub(crate) struct Way {
    pub(crate) path: Vec<Name>,
    pub(crate) left: Vec<NameList>,
}

impl Way {
    /// Goes to the next name that is left, in the innermost directory that has one, and says what it is bound to. None
    /// once all are followed, and then the way is empty.
    pub(crate) fn next(&mut self) -> Option<Handle>
        requires { length self.old.path.items ≡ length self.old.left.items }
        ensures visits { (depth : ℕ)
            → visits_of depth result self.new.path.items self.new.left.items
            ≡ left_visits depth (reverse self.old.path.items) (reverse self.old.left.items) }
        ensures len { length self.new.path.items ≡ length self.new.left.items }
        ensures shorter { length self.new.path.items ≤ length self.old.path.items }
        ensures end { result ≡ None → self.new.path.items ≡ [] }
    {
        while let Some(names) = self.left.pop() {
            let _followed = self.path.pop();
            let mut names = names.into_vec();
            if let Some(bound) = names.pop() {
                self.path.push_reserved(bound.name);
                self.left.push_reserved(NameList::from_vec(names));
                return Some(bound.to);
            }
        }
        None
    }
}

/// A copy of the path.
pub(crate) fn path_copied(alloc: Global, path: &[Name]) -> Result<Path, AllocError>
    ensures { IfOk result (λ copy. copy ≡ path.now) }
{
    let mut copy = Vec::with_capacity(alloc, path.len())?;
    for name in path {
        copy.push(name.copied(alloc)?)?;
    }
    Ok(Path::from_vec(copy))
}

/// A copy of the names.
pub(crate) fn names_copied(alloc: Global, names: &[BoundName]) -> Result<NameList, AllocError>
    ensures { IfOk result (λ copy. copy ≡ names.now) }
{
    let mut copy = Vec::with_capacity(alloc, names.len())?;
    for bound in names {
        copy.push(BoundName {
            name: bound.name.copied(alloc)?,
            to: bound.to,
        })?;
    }
    Ok(NameList::from_vec(copy))
}
