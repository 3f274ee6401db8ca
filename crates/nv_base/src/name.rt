//! Lawful names.

ghost use Rattle.std.specs.Prelude.{◌≡◌, ◌↔◌, false, IsTrue, IsOk, IfOk};
ghost use Rattle.std.specs.List.{list_all};
ghost use Rattle.nv_base.specs.Names.{is_dots, is_lawful_name, is_name_byte};
ghost use Rattle.nv_base.specs.Refusals.{FailsEither, FailsOnly, IsRefusedBy};
ghost use Rattle.nv_base.specs.Memory.{out_of_memory};

use crate::{Fault, limits};
use std::alloc::{AllocError, Global};
use std::marker::Model;

/// A lawful name: 1 to 255 bytes without `/` and NUL, and neither `.` nor `..`. Contracts see its bytes.
#[derive(Debug, Drop)]
pub struct Name {
    // On the heap, so that a name takes one word of each log entry: most entries have none.
    bytes: Box<Vec<u8>>,
}

impl Model for Name {
    ghost use Rattle.std.specs.Prelude.{List, ℕ, IsTrue};
    ghost use Rattle.nv_base.specs.Names.{is_lawful_name};

    ghost Value = { List ℕ };

    ghost view = { λ n. n.bytes.value.items };

    // Its bytes are a lawful name.
    ghost invariant = { λ n. IsTrue (is_lawful_name n.bytes.value.items) };
}

impl Name {
    /// Whether these bytes are a lawful name: `BadName` where they are not.
    pub fn check(bytes: &[u8]) -> Result<(), Fault>
        // Exactly the lawful names are accepted.
        ensures ok { IsOk result ↔ IsTrue (is_lawful_name bytes.now) }
        // The only error is `BadName`.
        ensures err { FailsOnly Fault.BadName result }
    {
        let fits = !bytes.is_empty() && bytes.len() <= limits::NAME_BYTES;
        if fits && has_name_bytes(bytes) && !is_dots(bytes) {
            return Ok(());
        }
        Err(Fault::BadName)
    }

    /// The name with these bytes: `BadName` exactly where they are no lawful name, and else at worst
    /// `OutOfMemory`.
    pub fn read(alloc: Global, bytes: &[u8]) -> Result<Name, Fault>
        // The name that was read has the bytes that were given.
        ensures ok { IfOk result (λ name. name ≡ bytes.now) }
        // Any other refusal is for want of memory.
        ensures err { FailsEither Fault.BadName out_of_memory result }
        // `BadName` is answered exactly where the bytes are no lawful name.
        ensures unlawful { IsRefusedBy result Fault.BadName ↔ (is_lawful_name bytes.now ≡ false) }
    {
        Name::check(bytes)?;
        Ok(Name {
            bytes: boxed(alloc, bytes)?,
        })
    }

    /// A copy of the name.
    pub fn copied(&self, alloc: Global) -> Result<Name, AllocError>
        // The copy of a name is that name.
        ensures { IfOk result (λ name. name ≡ self.now) }
    {
        Ok(Name {
            bytes: boxed(alloc, &self.bytes)?,
        })
    }

    /// The bytes of the name.
    pub fn bytes(&self) -> &[u8]
        // The bytes of a name read back as they were given, and are lawful.
        ensures value { result.now ≡ self.now }
        ensures lawful { IsTrue (is_lawful_name self.now) }
    {
        &self.bytes
    }

    /// What holds of each name: its bytes are lawful. Costs nothing.
    pub fn has_lawful_bytes(&self)
        // The bytes of each name are lawful.
        ensures { IsTrue (is_lawful_name self.now) }
    {
        let _bytes = self.bytes();
    }
}

/// A copy of the bytes on the heap.
fn boxed(alloc: Global, bytes: &[u8]) -> Result<Box<Vec<u8>>, AllocError>
    ensures { IfOk result (λ b. b.value.items ≡ bytes.now) }
{
    let bytes = Vec::from_slice(alloc, bytes)?;
    Ok(Box::new(alloc, bytes)?)
}

fn has_name_bytes(bytes: &[u8]) -> bool
    ensures { result ≡ list_all is_name_byte bytes.now }
{
    bytes.iter().all(|byte| *byte != b'/' && *byte != 0)
}

fn is_dots(bytes: &[u8]) -> bool
    ensures { result ≡ is_dots bytes.now }
{
    bytes == b".".as_slice() || bytes == b"..".as_slice()
}
