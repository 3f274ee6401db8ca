//! Writes that stop at the first failure.
ghost use Rattle.std.specs.Prelude.{◌≡◌, ◌<◌, ◌+◌, ◌-◌, ◌^◌, MatchResult, OnErr, OnOk};
ghost use Rattle.std.specs.Io.KnownBytes.{Appends};
ghost use Rattle.nv_script.specs.Lines.{WritesSome};

use crate::counted::{CountedWrite, WriteFailed};

/// Writes all bytes, or a front of them up to the first write that fails.
pub(crate) fn send<W: CountedWrite>(writer: &mut W, bytes: &[u8]) -> Result<(), WriteFailed>
    requires { W.failed writer.old < 2 ^ 64 - 1 }
    ensures sent { MatchResult result
        (λ _. Appends (W.contents writer.old) (W.contents writer.new) bytes.now)
        (λ _. WritesSome (W.contents writer.old) (W.contents writer.new) bytes.now) }
    ensures ok { OnOk result (W.failed writer.new ≡ W.failed writer.old) }
    ensures err { OnErr result (W.failed writer.new ≡ W.failed writer.old + 1) }
    ensures same { W.place writer.new ≡ W.place writer.old }
{
    let mut rest = bytes;
    while !rest.is_empty() {
        let Ok(count) = writer.write(rest) else {
            return Err(WriteFailed);
        };
        rest = &rest[count..];
    }
    Ok(())
}
