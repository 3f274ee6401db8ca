//! Numbers at their places, and names.

ghost use Rattle.std.specs.Prelude.{◌≡◌, ◌≤◌, ◌+◌, length, true, false, MatchOption};
ghost use Rattle.std.specs.List.{position};
ghost use Rattle.nv_fuse.specs.Fields.{behind_name, field, has_name, is_nul, name_of};

use byteorder::{ByteOrder, LittleEndian};

/// The number in four bytes from a place on.
pub(crate) fn word(bytes: &[u8], place: usize) -> u32
    requires { place + 4 ≤ length bytes.now }
    ensures { result ≡ field place 4 bytes.now }
{
    LittleEndian::read_u32(&bytes[place..])
}

/// The number in eight bytes from a place on.
pub(crate) fn long(bytes: &[u8], place: usize) -> u64
    requires { place + 8 ≤ length bytes.now }
    ensures { result ≡ field place 8 bytes.now }
{
    LittleEndian::read_u64(&bytes[place..])
}

/// The name that bytes begin with, and what stands behind the byte that ends it.
pub(crate) fn cut_name(bytes: &[u8]) -> Option<(&[u8], &[u8])>
    ensures { MatchOption result (has_name bytes.now ≡ false) (λ cut.
        (has_name bytes.now ≡ true)
        × (cut.0.now ≡ name_of bytes.now)
        × (cut.1.now ≡ behind_name bytes.now)) }
{
    match end_of_name(bytes) {
        None => None,
        Some(end) => Some((&bytes[..end], &bytes[end + 1..])),
    }
}

/// Where the first zero byte stands.
fn end_of_name(bytes: &[u8]) -> Option<usize>
    ensures { result ≡ position is_nul bytes.now }
{
    bytes.iter().position(|byte| *byte == 0)
}
