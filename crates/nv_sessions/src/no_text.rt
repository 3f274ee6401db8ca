//! The text of a call that writes none.

ghost use Rattle.std.specs.Prelude.{◌≡◌};

use nv_calls::{Source, SourceFault};

/// A text of zeros that never fails, for calls that ask for none.
#[derive(Clone, Copy, Drop)]
pub(crate) struct NoText;

impl Source for NoText {
    ghost byte_at = { λ _ _. 0 };

    ghost failed = { λ _. 0 };

    ghost State = { Unit {0} };

    ghost state = { λ _. tt };

    ghost asked = { λ state _. state };

    fn fill(&mut self, _at: u64, part: &mut [u8]) -> Result<(), SourceFault> {
        part.fill(0);
        Ok(())
    }

    fn failures(&self) -> u64 {
        0
    }
}
