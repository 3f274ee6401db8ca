//! Cleaners of the log of one inode.

ghost use Rattle.nv_calls.specs.declared.snapshot_or_cleaner_call.SnapshotOrCleanerCall.TheVariants as on;
ghost use Rattle.nv_files.specs.Stands.{Leads};
ghost use Rattle.nv_files.specs.Told.{IsToldOrStarved};

use crate::answers::cleaned_of;
use crate::files::Files;
use nv_base::{Fault, Ino};
use nv_calls::{Answer, Call, SnapshotOrCleanerCall};
use nv_clean::Cleaned;

impl Files {
    /// Unlinks the log pages of which nothing is needed.
    pub fn clean_fast(&mut self, ino: Ino) -> Result<Cleaned, Fault>
        // A `clean_fast` tells what the world with numbers tells of it, or is refused as there.
        ensures { Leads (IsToldOrStarved (Call.SnapshotOrCleaner (on.Fast ino)) result
            (λ done. Answer.Cleaned done.thorough done.entries done.pages)) self.old self.new }
    {
        let clean = Call::SnapshotOrCleaner(SnapshotOrCleanerCall::Fast(ino));
        let answer = self.call(clean)?;
        Ok(cleaned_of(answer))
    }

    /// Moves the entries that are needed to as few log pages as they fill, which it takes first.
    pub fn clean_thorough(&mut self, ino: Ino) -> Result<Cleaned, Fault>
        // A `clean_thorough` tells what the world with numbers tells of it, or is refused as there.
        ensures { Leads (IsToldOrStarved (Call.SnapshotOrCleaner (on.Thorough ino)) result
            (λ done. Answer.Cleaned done.thorough done.entries done.pages)) self.old self.new }
    {
        let clean = Call::SnapshotOrCleaner(SnapshotOrCleanerCall::Thorough(ino));
        let answer = self.call(clean)?;
        Ok(cleaned_of(answer))
    }

    /// Cleans as [`Files::clean_thorough`] where less than half of the entries are needed, and else as [`Files::clean_fast`].
    pub fn clean_auto(&mut self, ino: Ino) -> Result<Cleaned, Fault>
        // A `clean_auto` tells what the world with numbers tells of it, or is refused as there.
        ensures { Leads (IsToldOrStarved (Call.SnapshotOrCleaner (on.Auto ino)) result
            (λ done. Answer.Cleaned done.thorough done.entries done.pages)) self.old self.new }
    {
        let clean = Call::SnapshotOrCleaner(SnapshotOrCleanerCall::Auto(ino));
        let answer = self.call(clean)?;
        Ok(cleaned_of(answer))
    }
}
