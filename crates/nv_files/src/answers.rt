//! Answers, each read as a value of the type that its call has.

ghost use Rattle.std.specs.Prelude.{◌≡◌};
ghost use Rattle.nv_files.specs.Told.{HasBytes};
ghost use Rattle.nv_effects.specs.Suits.{IsCleaned, IsCount, IsMade, IsNames, IsNothing, IsSnapshot, IsStat, IsTree};

use nv_base::{Bytes, CommitNo, Epoch, Handle, Kind, Mode};
use nv_calls::Answer;
use nv_clean::Cleaned;
use nv_entry::{NameList, Tree};

/// What a node is: its kind, its mode, its size in bytes (0 for a directory), and the commit that changed it last.
#[derive(Clone, Copy, Debug, PartialEq, Eq)]
pub struct Stat {
    pub kind: Kind,
    pub mode: Mode,
    pub size: u64,
    pub commit: CommitNo,
}

pub(crate) fn handle_of(answer: Answer) -> Handle
    requires { IsMade answer }
    ensures { answer ≡ Answer.Made result }
{
    match answer {
        Answer::Made(handle) => handle,
        _ => unreachable!(),
    }
}

pub(crate) fn check_nothing(answer: Answer)
    requires { IsNothing answer }
    ensures { answer ≡ Answer.Nothing }
{
    match answer {
        Answer::Nothing => {}
        _ => unreachable!(),
    }
}

pub(crate) fn count_of(answer: Answer) -> u64
    requires { IsCount answer }
    ensures { answer ≡ Answer.Count result }
{
    match answer {
        Answer::Count(count) => count,
        _ => unreachable!(),
    }
}

pub(crate) fn bytes_of(answer: Answer) -> Bytes
    requires { HasBytes answer }
    ensures { answer ≡ Answer.Bytes result }
{
    match answer {
        Answer::Bytes(bytes) => bytes,
        _ => unreachable!(),
    }
}

pub(crate) fn stat_of(answer: Answer) -> Stat
    requires { IsStat answer }
    ensures { answer ≡ Answer.Stat result.kind result.mode result.size result.commit }
{
    match answer {
        Answer::Stat {
            kind,
            mode,
            size,
            commit,
        } => Stat {
            kind,
            mode,
            size,
            commit,
        },
        _ => unreachable!(),
    }
}

pub(crate) fn names_of(answer: Answer) -> NameList
    requires { IsNames answer }
    ensures { answer ≡ Answer.Names result }
{
    match answer {
        Answer::Names(names) => names,
        _ => unreachable!(),
    }
}

pub(crate) fn snapshot_of(answer: Answer) -> Epoch
    requires { IsSnapshot answer }
    ensures { answer ≡ Answer.Snapshot result }
{
    match answer {
        Answer::Snapshot(snapshot) => snapshot,
        _ => unreachable!(),
    }
}

pub(crate) fn tree_of(answer: Answer) -> Tree
    requires { IsTree answer }
    ensures { answer ≡ Answer.Tree result }
{
    match answer {
        Answer::Tree(tree) => tree,
        _ => unreachable!(),
    }
}

pub(crate) fn cleaned_of(answer: Answer) -> Cleaned
    requires { IsCleaned answer }
    ensures { answer ≡ Answer.Cleaned result.thorough result.entries result.pages }
{
    match answer {
        Answer::Cleaned {
            thorough,
            entries,
            pages,
        } => Cleaned {
            thorough,
            entries,
            pages,
        },
        _ => unreachable!(),
    }
}
