//! Bytes are put into buffers of a caller.

ghost use Rattle.std.specs.Prelude.{◌≡◌, ◌++◌, ◌≤◌, drop, length, take};
ghost use Rattle.nv_c.specs.Bytes.{IsPut, bytes_from};

use crate::status::{DONE, SHORT};

/// Puts bytes in front of a buffer that takes them, and tells how many they are.
pub(crate) fn put_bytes(bytes: &[u8], into: &mut [u8], len: &mut usize) -> u32
    ensures { IsPut bytes.now result into.old into.new len.new }
{
    *len = bytes.len();
    if into.len() < bytes.len() {
        return SHORT;
    }
    into[..bytes.len()].copy_from_slice(bytes);
    DONE
}

/// Puts as many bytes from an offset on in front of a buffer as there are and as it takes, and tells how many.
pub(crate) fn put_bytes_from(bytes: &[u8], offset: u64, into: &mut [u8]) -> usize
    ensures count { result ≡ length (bytes_from bytes.now offset (length into.old)) }
    ensures told { into.new
        ≡ bytes_from bytes.now offset (length into.old) ++ drop result into.old }
{
    let from = bytes.len().min(offset as usize);
    let rest = &bytes[from..];
    let count = rest.len().min(into.len());
    into[..count].copy_from_slice(&rest[..count]);
    count
}
