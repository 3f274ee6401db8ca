//! Names of calls as names of items.

ghost use Rattle.std.specs.Prelude.{◌≡◌, IfOk, IsTrue};
ghost use Rattle.nv_base.specs.Names.{is_lawful_name};
ghost use Rattle.nv_base.specs.Refusals.{FailsOnly};
ghost use Rattle.nv_base.specs.Memory.{out_of_memory};

use nv_base::{Fault, Name};
use std::alloc::Global;

/// A lawful name once more, for an item.
pub(crate) fn name_of(alloc: Global, name: &[u8]) -> Result<Name, Fault>
    requires { IsTrue (is_lawful_name name.now) }
    ensures ok { IfOk result (λ n. n ≡ name.now) }
    ensures err { FailsOnly out_of_memory result }
{
    Name::read(alloc, name)
}
