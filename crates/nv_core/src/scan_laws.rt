//! That reports say what one scan of all logs counts: laws, each the contract of a function that does nothing.

ghost use Rattle.std.specs.Prelude.{◌≡◌, ℕ};
ghost use Rattle.nv_core.specs.Reports.{lists_of, log_at, snaps_of, space_of};
ghost use Rattle.nv_core.specs.Scans.{lists_by_scan, log_by_scan, snaps_by_scan, space_by_scan};
ghost use Rattle.nv_core.specs.Worlds.{HasRun};
ghost use Rattle.nv_machine.specs.World.{World};

/// The five numbers of [`crate::World::space`] are those of a scan, from any start on, whatever events come. Free are the
/// numbers of home ranges that logs, chains and hands leave. Data are the pages of logs that are current or that a
/// living snapshot holds, and pending the pages of records that are deferred, or picked and not yet released. A page
/// that was killed and is not yet retired counts as data only where a living snapshot holds it. All other blocks count
/// as in hands: so does a block that is appended and not yet published.
pub fn space_is_what_a_scan_counts()
    // The five numbers of `space` are those of one scan, where no mark is asked.
    ensures { (w : World) → HasRun w → space_of w ≡ space_by_scan w }
{}

/// The runs of [`crate::World::lists`] are those of a scan, from any start on, whatever events come: those of the
/// numbers that logs, chains and hands leave of each home range.
pub fn lists_are_what_a_scan_counts()
    // The block runs of `lists` are those of the numbers that logs, chains and hands leave.
    ensures { (w : World) → HasRun w → lists_of w.shared ≡ lists_by_scan w }
{}

/// The counts of [`crate::World::log`] are those of a scan: of each log page how many of its published entries have
/// a pair that is current, and how many one that is current, held by a living snapshot, pending, or killed and not
/// yet retired.
pub fn logs_are_what_a_scan_counts()
    // The counts of `log` are from scratch, a page of a chain each.
    ensures { (w : World) (ino : ℕ) → HasRun w → log_at w.shared ino ≡ log_by_scan w ino }
{}

/// The numbers of [`crate::World::snaps`] are those of a scan. They tell how many pages a snapshot holds by the
/// logs that are no longer current, except for those that are killed and not yet retired, and how many of these no
/// other living one holds.
pub fn snapshots_are_what_a_scan_counts()
    // What a snapshot holds, and what it alone holds, is told by logs.
    ensures { (w : World) → HasRun w → snaps_of w.shared.book ≡ snaps_by_scan w }
{}
