//! Answers that are gathered until the reader is asked for more bytes.

ghost use Rattle.std.specs.Prelude.{◌≡◌, ◌<◌, ◌+◌, ◌-◌, ◌^◌, [], ◌++◌, IfOk, MatchResult, OnErr, OnOk};
ghost use Rattle.std.specs.Io.KnownBytes.{Appends};

use crate::counted::{CountedWrite, WriteFailed};
use crate::send::send;
use nv_base::Fault;
use std::alloc::{AllocError, Global};
use std::marker::Model;

/// The most bytes that are gathered.
const OUTBOX_BYTES: usize = 65_536;

/// Bytes that are to be written, and their room.
#[derive(Drop)]
pub struct Outbox {
    gathered: Vec<u8>,
}

impl Model for Outbox {
    ghost use Rattle.std.specs.Prelude.{ℕ, List};

    ghost Value = { List ℕ };

    ghost view = { λ outbox. outbox.gathered.items };
}

impl Outbox {
    ghost use Rattle.nv_script.specs.Lines.{WritesFront, WritesSome};
    ghost use Rattle.nv_script.specs.Play.{failed_writes};
    ghost use Rattle.nv_script.specs.Results.{EndsText, Gathers};

    /// An outbox with nothing gathered.
    pub(crate) fn new(alloc: Global) -> Result<Outbox, AllocError>
        ensures { IfOk result (λ outbox. outbox ≡ []) }
    {
        Ok(Outbox {
            gathered: Vec::with_capacity(alloc, OUTBOX_BYTES)?,
        })
    }

    /// Writes what is gathered. After a failed write the rest of it is given up.
    pub(crate) fn flush<W: CountedWrite>(&mut self, writer: &mut W) -> Result<(), WriteFailed>
        requires { W.failed writer.old < 2 ^ 64 - 1 }
        ensures empty { self.new ≡ [] }
        ensures sent { MatchResult result
            (λ _. Appends (W.contents writer.old) (W.contents writer.new) self.old)
            (λ _. WritesSome (W.contents writer.old) (W.contents writer.new) self.old) }
        ensures ok { OnOk result (W.failed writer.new ≡ W.failed writer.old) }
        ensures err { OnErr result (W.failed writer.new ≡ W.failed writer.old + 1) }
        ensures same { W.place writer.new ≡ W.place writer.old }
    {
        let sent = send(writer, self.gathered.as_slice());
        self.gathered.clear();
        sent
    }

    /// Writes what is gathered where a script ends so, except once a read or a write failed: nothing is gathered then.
    pub fn end<W: CountedWrite>(
        &mut self,
        writer: &mut W,
        outcome: Result<(), Fault>,
    ) -> Result<(), Fault>
        requires writes { failed_writes outcome ≡ 0 → W.failed writer.old < 2 ^ 64 - 1 }
        ensures ended { EndsText outcome result
            (record { written = W.contents writer.old; gathered = self.old })
            (record { written = W.contents writer.new; gathered = self.new }) }
        ensures writes { W.failed writer.new + failed_writes outcome
            ≡ W.failed writer.old + failed_writes result }
        ensures same { W.place writer.new ≡ W.place writer.old }
    {
        match outcome {
            Err(Fault::Read) => Err(Fault::Read),
            Err(Fault::Write) => Err(Fault::Write),
            _ => match self.flush(writer) {
                Ok(()) => outcome,
                Err(WriteFailed) => Err(Fault::Write),
            },
        }
    }

    /// Gathers a text. Where there is no room for it what was gathered is written first, and a text
    /// that is longer than all room is written at once. After a failed write nothing is gathered.
    pub fn add<W: CountedWrite>(&mut self, writer: &mut W, text: &[u8]) -> Result<(), WriteFailed>
        requires { W.failed writer.old < 2 ^ 64 - 1 }
        ensures sent { MatchResult result
            (λ _. WritesFront (W.contents writer.old) (W.contents writer.new)
            (self.old ++ text.now) self.new)
            (λ _. WritesSome (W.contents writer.old) (W.contents writer.new)
            (self.old ++ text.now) × (self.new ≡ [])) }
        ensures ok { OnOk result (W.failed writer.new ≡ W.failed writer.old) }
        ensures err { OnErr result (W.failed writer.new ≡ W.failed writer.old + 1) }
        ensures same { W.place writer.new ≡ W.place writer.old }
    {
        if self.gather(text) {
            return Ok(());
        }
        self.flush(writer)?;
        if self.gather(text) {
            return Ok(());
        }
        send(writer, text)?;
        Ok(())
    }

    /// Gathers a text if there is room for it. One without bytes, as of most lines what stands before their answers, takes no copy.
    fn gather(&mut self, text: &[u8]) -> bool
        ensures { Gathers result self.old text.now self.new }
    {
        if text.is_empty() {
            return true;
        }
        if text.len() > self.gathered.capacity() - self.gathered.len() {
            return false;
        }
        self.gathered.extend_from_slice(text).is_ok()
    }
}
