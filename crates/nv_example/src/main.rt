//! Two callers of the library, written to be copied: one that makes its calls one after another, and one with several threads. What
//! they print is apart by an empty line.
#![tactic(auto)]

mod letters;
mod threads;

use anyhow::Result;

fn main(rt: HostRuntime) -> Result<()> {
    letters::run(&rt)?;
    println!(rt; "")?;
    threads::run(&rt)
}
