//! Where the bytes of a write come from.

/// A part of a text could not be had from its source.
#[derive(Clone, Copy, Debug, PartialEq, Eq)]
pub struct SourceFault;

/// A text, which is handed out part by part. Contracts see the byte at each of its places, how many calls failed, and
/// a state of the source's own choice, which each call moves on by the place and the bytes that it was asked for: a
/// caller whose contract gives that state says with it for which parts it asks, and in which order.
/// A source tells what it was asked and how often it failed.
pub trait Source {
    ghost use Rattle.std.specs.Prelude.{◌≡◌, ℕ, ◌+◌, ◌-◌, ◌<◌, ◌^◌, OnErr, OnOk, length, map};
    ghost use Rattle.std.specs.List.{range_with_len};

    ghost byte_at: { Self → ℕ → ℕ };

    ghost failed: { Self → ℕ };

    ghost State: { Type 0 };

    ghost state: { Self → State };

    ghost asked: { State → ℕ × ℕ → State };

    /// Writes the bytes of the text from a place on over a part of a page.
    fn fill(&mut self, at: u64, part: &mut [u8]) -> Result<(), SourceFault>
        requires { failed self.old < 2 ^ 64 - 1 }
        ensures text { byte_at self.new ≡ byte_at self.old }
        ensures part { OnOk result
            (part.new ≡ map (byte_at self.old) (range_with_len at (length part.old))) }
        ensures asked { state self.new ≡ asked (state self.old) (at, length part.old) }
        ensures ok { OnOk result (failed self.new ≡ failed self.old) }
        ensures err { OnErr result (failed self.new ≡ failed self.old + 1) };

    /// How many calls failed.
    fn failures(&self) -> u64
        ensures { result ≡ failed self.now };
}
