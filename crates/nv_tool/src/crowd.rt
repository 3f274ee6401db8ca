//! How many threads play a script, and how many cleaners run beside.

ghost use Rattle.std.specs.Prelude.{◌≡◌, ◌≤◌, max, min};

/// The most threads, and the most cleaners.
const MOST: u64 = 32;

/// How many threads play a script, 1 to 32, and how many cleaners run beside, 0 to 32.
#[derive(Clone, Copy, Debug, PartialEq, Eq)]
pub(crate) struct Crowd {
    pub(crate) threads: u64,
    pub(crate) cleaners: u64,
    // There are 1 to 32 threads and at most 32 cleaners.
    ghost some_thread: { 1 ≤ threads },
    ghost few_threads: { threads ≤ 32 },
    ghost few_cleaners: { cleaners ≤ 32 },
}

impl Crowd {
    /// As many as are asked for, within these bounds.
    pub(crate) fn at_most(threads: u64, cleaners: u64) -> Crowd
        ensures { (result.threads ≡ max 1 (min threads MOST))
            × (result.cleaners ≡ min cleaners MOST) }
    {
        Crowd {
            threads: threads.min(MOST).max(1),
            cleaners: cleaners.min(MOST),
        }
    }

    /// Two threads and one cleaner.
    pub(crate) fn usual() -> Crowd
        ensures { (result.threads ≡ 2) × (result.cleaners ≡ 1) }
    {
        Crowd {
            threads: 2,
            cleaners: 1,
        }
    }
}
