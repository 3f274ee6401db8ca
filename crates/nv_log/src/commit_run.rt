//! Entries of a log whose commits follow one another.

ghost use Rattle.std.specs.Prelude.{◌≡◌, ◌<◌, ◌++◌, ◌∷◌, List, [], IfSome, Some, length};
ghost use Rattle.nv_entry.specs.Log.{IsLog};
ghost use Rattle.nv_entry.specs.declared.item.Entry.{Entry};
ghost use Rattle.nv_log.specs.Chain.{place_of_id};
ghost use Rattle.nv_log.specs.CommitRun.{IsCommitRun};

use nv_base::EntryId;
use nv_entry::Entry;

/// Entries of a log that are each the first of its commit, and whose commits follow one another without a gap: the place
/// of such an entry follows from its id, and none is looked at. Of a file that is written alone, all entries but the first
/// are such.
#[derive(Clone, Copy, Debug, PartialEq, Eq)]
pub struct CommitRun {
    /// The place of the first of these entries.
    pub from: usize,
    /// The place behind the last of them.
    pub to: usize,
    /// The commit of the first of them.
    pub first: u64,
}

impl CommitRun {
    /// No entries.
    pub fn empty() -> CommitRun
        ensures { (entries : List Entry) → IsCommitRun entries result }
    {
        CommitRun {
            from: 0,
            to: 0,
            first: 0,
        }
    }

    /// The run of the entries with one more, which has this id. The first entry of a commit goes on from a run that ends
    /// right before it and at the commit before. Else it begins the next run at once, as behind a gap where another file's
    /// commit came between. An entry behind the first of its commit keeps the run, so one commit of many entries does not
    /// take a long run away: the commit after it does.
    pub fn with(self, entries: &[Entry], id: EntryId) -> CommitRun
        requires { IsCommitRun entries.now self }
        ensures { (e : Entry) → e.id ≡ id → IsCommitRun (entries.now ++ e ∷ []) result }
    {
        if id.place != 0 {
            return self;
        }
        let len = entries.len();
        let commit = id.commit.number();
        let many = self.to.saturating_sub(self.from);
        let follows = self.to == len && commit.saturating_sub(self.first) == many as u64;
        if follows && many > 0 {
            return CommitRun {
                to: len + 1,
                ..self
            };
        }
        CommitRun {
            from: len,
            to: len + 1,
            first: commit,
        }
    }

    /// The place of the entry of that id, if it is one of the run.
    pub fn place_of(self, entries: &[Entry], id: EntryId) -> Option<usize>
        requires log { IsLog entries.now }
        requires run { IsCommitRun entries.now self }
        ensures { IfSome result
            (λ place. (place < length entries.now) × (place_of_id entries.now id ≡ Some place)) }
    {
        let commit = id.commit.number();
        if id.place != 0 || commit < self.first {
            return None;
        }
        let place = self.from.saturating_add((commit - self.first) as usize);
        (place < self.to).then_some(place)
    }
}
