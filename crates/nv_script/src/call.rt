//! The calls of a script. A new call is a variant of `CallWord` with its row, and an arm of `read`, each beside the
//! definition of the same name.

ghost use Rattle.std.specs.Prelude.{◌≡◌, true};
ghost use Rattle.nv_script.specs.Grammar.{Reads, all_calls, call_with, fields_in, is_snapshot_or_cleaner, name_in, named_among, reads_or_unbinds, row, snapshot_or_cleaner_read, texts, third_call};

use crate::fault::LineFault;
use crate::field::{Field, handle_at, mode_at, number_at, records_at, text_at};
use crate::word::word_at;
use nv_base::{Epoch, Ino, ScriptFaultKind};
use nv_core::{Call, SnapshotOrCleanerCall};
use std::alloc::Global;

/// A call by its name.
#[derive(Clone, Copy, Drop)]
pub(crate) enum CallWord {
    Create,
    Mkdir,
    Write,
    Read,
    Size,
    Mode,
    Stat,
    List,
    Lookup,
    Unlink,
    Rmdir,
    Rename,
    Snap,
    Drop,
    Show,
    Drain,
    Fast,
    Thorough,
    Auto,
}

/// A row of the table of calls: the name, and what the words after it are.
#[derive(Clone, Copy, Drop)]
pub(crate) struct CallRow {
    pub(crate) name: &'static [u8],
    pub(crate) fields: &'static [Field],
}

impl CallWord {
    const ALL: [CallWord; 19] = [
        CallWord::Create,
        CallWord::Mkdir,
        CallWord::Write,
        CallWord::Read,
        CallWord::Size,
        CallWord::Mode,
        CallWord::Stat,
        CallWord::List,
        CallWord::Lookup,
        CallWord::Unlink,
        CallWord::Rmdir,
        CallWord::Rename,
        CallWord::Snap,
        CallWord::Drop,
        CallWord::Show,
        CallWord::Drain,
        CallWord::Fast,
        CallWord::Thorough,
        CallWord::Auto,
    ];

    /// The table of calls.
    pub(crate) fn row(self) -> CallRow
        ensures name { result.name.now ≡ name_in (row self) }
        ensures fields { result.fields.now ≡ fields_in (row self) }
    {
        CallRow {
            name: self.name(),
            fields: self.fields(),
        }
    }

    fn name(self) -> &'static [u8]
        ensures { result.now ≡ name_in (row self) }
    {
        match self {
            CallWord::Create => b"create",
            CallWord::Mkdir => b"mkdir",
            CallWord::Write => b"write",
            CallWord::Read => b"read",
            CallWord::Size => b"size",
            CallWord::Mode => b"mode",
            CallWord::Stat => b"stat",
            CallWord::List => b"list",
            CallWord::Lookup => b"lookup",
            CallWord::Unlink => b"unlink",
            CallWord::Rmdir => b"rmdir",
            CallWord::Rename => b"rename",
            CallWord::Snap => b"snap",
            CallWord::Drop => b"drop",
            CallWord::Show => b"show",
            CallWord::Drain => b"drain",
            CallWord::Fast => b"fast",
            CallWord::Thorough => b"thorough",
            CallWord::Auto => b"auto",
        }
    }

    /// What the words after the name are.
    fn fields(self) -> &'static [Field]
        ensures { result.now ≡ fields_in (row self) }
    {
        match self {
            CallWord::Create | CallWord::Mkdir => &[Field::Handle, Field::Text, Field::Mode],
            CallWord::Write => &[Field::Handle, Field::Number, Field::Text],
            CallWord::Read => &[Field::Handle, Field::Number, Field::Number],
            CallWord::Size => &[Field::Handle, Field::Number],
            CallWord::Mode => &[Field::Handle, Field::Mode],
            CallWord::Stat | CallWord::List => &[Field::Handle],
            CallWord::Lookup | CallWord::Unlink | CallWord::Rmdir => &[Field::Handle, Field::Text],
            CallWord::Rename => &[Field::Handle, Field::Text, Field::Handle, Field::Text],
            CallWord::Snap => &[],
            CallWord::Drop | CallWord::Show => &[Field::Number],
            CallWord::Fast | CallWord::Thorough | CallWord::Auto => &[Field::Number],
            CallWord::Drain => &[Field::Records],
        }
    }

    /// The call of this name.
    fn named(name: &[u8]) -> Option<CallWord>
        ensures { result ≡ named_among all_calls name.now }
    {
        for call in CallWord::ALL {
            if name == call.name() {
                return Some(call);
            }
        }
        None
    }

    /// The call that the third word names, as in `do ACTOR CALL`.
    #[inline(always)]
    pub(crate) fn third(words: &[&[u8]]) -> Result<CallWord, ScriptFaultKind>
        ensures { result ≡ third_call (texts words.now) }
    {
        if words.len() < 3 {
            return Err(ScriptFaultKind::Count);
        }
        CallWord::named(word_at(words, 2)).ok_or(ScriptFaultKind::Word)
    }

    /// The call of a line, whose own words stand from place 3 on.
    pub(crate) fn read(self, alloc: Global, words: &[&[u8]]) -> Result<Call, LineFault>
        ensures { Reads result (call_with self (texts words.now)) }
    {
        match self {
            CallWord::Create => Ok(Call::Create {
                dir: handle_at(words, 3)?,
                name: text_at(alloc, words, 4)?,
                mode: mode_at(words, 5)?,
            }),
            CallWord::Mkdir => Ok(Call::Mkdir {
                dir: handle_at(words, 3)?,
                name: text_at(alloc, words, 4)?,
                mode: mode_at(words, 5)?,
            }),
            CallWord::Write => Ok(Call::Write {
                file: handle_at(words, 3)?,
                offset: number_at(words, 4)?,
                text: text_at(alloc, words, 5)?,
            }),
            CallWord::Read => Ok(Call::Read {
                file: handle_at(words, 3)?,
                offset: number_at(words, 4)?,
                count: number_at(words, 5)?,
            }),
            CallWord::Size => Ok(Call::Size {
                file: handle_at(words, 3)?,
                size: number_at(words, 4)?,
            }),
            CallWord::Mode => Ok(Call::Mode {
                handle: handle_at(words, 3)?,
                mode: mode_at(words, 4)?,
            }),
            CallWord::Snap
            | CallWord::Drop
            | CallWord::Show
            | CallWord::Drain
            | CallWord::Fast
            | CallWord::Thorough
            | CallWord::Auto => {
                Ok(Call::SnapshotOrCleaner(self.read_snapshot_or_cleaner(words)?))
            }
            _ => self.read_names(alloc, words),
        }
    }

    /// The calls that read one node, and those that take names away.
    fn read_names(self, alloc: Global, words: &[&[u8]]) -> Result<Call, LineFault>
        requires { reads_or_unbinds self ≡ true }
        ensures { Reads result (call_with self (texts words.now)) }
    {
        match self {
            CallWord::Stat => Ok(Call::Stat {
                handle: handle_at(words, 3)?,
            }),
            CallWord::List => Ok(Call::List {
                dir: handle_at(words, 3)?,
            }),
            CallWord::Lookup => Ok(Call::Lookup {
                dir: handle_at(words, 3)?,
                name: text_at(alloc, words, 4)?,
            }),
            CallWord::Unlink => Ok(Call::Unlink {
                dir: handle_at(words, 3)?,
                name: text_at(alloc, words, 4)?,
            }),
            CallWord::Rmdir => Ok(Call::Rmdir {
                dir: handle_at(words, 3)?,
                name: text_at(alloc, words, 4)?,
            }),
            CallWord::Rename => Ok(Call::Rename {
                from: handle_at(words, 3)?,
                old: text_at(alloc, words, 4)?,
                to: handle_at(words, 5)?,
                new: text_at(alloc, words, 6)?,
            }),
            _ => unreachable!(),
        }
    }

    /// The calls on snapshots, and the cleaners.
    fn read_snapshot_or_cleaner(
        self,
        words: &[&[u8]],
    ) -> Result<SnapshotOrCleanerCall, ScriptFaultKind>
        requires { is_snapshot_or_cleaner self ≡ true }
        ensures { snapshot_or_cleaner_read result ≡ call_with self (texts words.now) }
    {
        match self {
            CallWord::Snap => Ok(SnapshotOrCleanerCall::Snap),
            CallWord::Drop => Ok(SnapshotOrCleanerCall::Drop(Epoch::new(number_at(words, 3)?))),
            CallWord::Show => Ok(SnapshotOrCleanerCall::Show(Epoch::new(number_at(words, 3)?))),
            CallWord::Drain => Ok(SnapshotOrCleanerCall::Drain(records_at(words, 3)?)),
            CallWord::Fast => Ok(SnapshotOrCleanerCall::Fast(Ino::new(number_at(words, 3)?))),
            CallWord::Thorough => Ok(SnapshotOrCleanerCall::Thorough(Ino::new(number_at(
                words, 3,
            )?))),
            CallWord::Auto => Ok(SnapshotOrCleanerCall::Auto(Ino::new(number_at(words, 3)?))),
            _ => unreachable!(),
        }
    }
}
