//! The records.

use nv_base::Bytes;
use nv_calls::Call;

/// What is kept of a world, one behind the other.
#[derive(Debug, Drop)]
pub enum Record {
    /// The caller made this call.
    Call(Call),
    /// The machine stopped between two calls, and the world was mounted again.
    Stopped,
    /// Bytes of the caller's own, which mean nothing to the world.
    Note(Bytes),
}

/// The tag that is kept for images. No record has it, and none is read from it.
pub const IMAGE_TAG: u8 = 22;
