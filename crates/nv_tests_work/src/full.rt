//! Eight threads and four cleaners on a device that fills up.

use crate::compare::{holds_for, same};
use crate::played::played;
use nv_work::OpenGate;
use std::alloc::{AllocError, Global};
use std::process::Abort;

/// How many actors, each with a thread and a file of its own.
const ACTORS: u64 = 8;

/// How often each writes its file and sets its mode.
const ROUNDS: u64 = 50;

/// The mode that an actor sets in a round.
fn mode(actor: u64, round: u64) -> u64 {
    ROUNDS * (actor % ACTORS) + round % ROUNDS
}

/// The four digits that it writes then.
fn digits(actor: u64, round: u64) -> u64 {
    mode(actor, round).saturating_add(1000)
}

/// Files `f0` to `f7`, and behind `fork` the rounds of each actor on its file.
fn script(alloc: Global) -> Result<String, AllocError> {
    let mut out = String::new(alloc);
    write!(
        out,
        "format blocks=64 cpus=4 block=4 page=4 inodes=16 snaps=4 actors=8\n"
    )?;
    for actor in 0..ACTORS {
        write!(out, "do 0 create 0.1 f{actor} 420\n")?;
    }
    write!(out, "fork\n")?;
    for round in 0..ROUNDS {
        for actor in 0..ACTORS {
            let file = actor + 1;
            write!(
                out,
                "do {actor} write {file}.1 0 {}\n",
                digits(actor, round)
            )?;
            write!(out, "do {actor} mode {file}.1 {}\n", mode(actor, round))?;
        }
    }
    Ok(out)
}

/// What is left of the text that was written, and how many calls of threads were accepted so far.
#[derive(Drop)]
struct Replies<'a> {
    left: &'a [u8],
    accepted: u64,
}

impl Replies<'_> {
    /// Takes a line if it is the next one, and tells whether it is.
    fn takes(&mut self, line: &str) -> bool {
        match self.left.strip_prefix(line.as_bytes()) {
            Some(left) => {
                self.left = left;
                true
            }
            None => false,
        }
    }

    /// Takes what an actor's call was answered, and tells whether it was accepted. Else the device was full.
    fn accepts(
        &mut self,
        rt: &impl Abort,
        alloc: Global,
        actor: u64,
        answer: &str,
    ) -> Result<bool, AllocError> {
        if self.takes(format!(in alloc; "{actor}: {answer}\n")?.as_str()) {
            self.accepted = self.accepted.saturating_add(1);
            return Ok(true);
        }
        let refused = format!(in alloc; "{actor}: refused E13 NoSpace\n")?;
        holds_for(rt, &actor, self.takes(refused.as_str()));
        Ok(false)
    }

    /// Takes the answers of an actor, and gives the line of its file in the tree after them: the text and the mode of the
    /// last calls that were accepted.
    fn file_of(
        &mut self,
        rt: &impl Abort,
        alloc: Global,
        actor: u64,
    ) -> Result<String, AllocError> {
        let (mut text, mut bits) = (None, 420);
        for round in 0..ROUNDS {
            if self.accepts(rt, alloc, actor, "done 4")? {
                text = Some(digits(actor, round));
            }
            if self.accepts(rt, alloc, actor, "done")? {
                bits = mode(actor, round);
            }
        }
        match text {
            Some(digits) => format!(in alloc; "/f{actor} f {bits} 4 {digits}\n"),
            None => format!(in alloc; "/f{actor} f {bits} 0\n"),
        }
    }
}

/// Takes all answers, and gives the texts of the reports behind them.
fn reports_of(
    rt: &impl Abort,
    alloc: Global,
    replies: &mut Replies<'_>,
) -> Result<String, AllocError> {
    let mut reports = String::new(alloc);
    reports.push_str("/ d 493\n")?;
    for actor in 0..ACTORS {
        reports.push_str(replies.file_of(rt, alloc, actor)?.as_str())?;
    }
    let commit = replies.accepted.saturating_add(ACTORS);
    write!(reports, "end\nsnaps 0 epoch 1 commit {commit}\naudit ok\n")?;
    Ok(reports)
}

/// Eight threads and four cleaners on a full device lose no call: no clause speaks of what a thread's calls leave.
#[test]
fn eight_threads_on_a_full_device(rt: HostRuntime) -> Result<(), AllocError> {
    let alloc = rt.alloc();
    let script = script(alloc)?;
    let (outcome, text) = played(&rt, alloc, script.as_bytes(), ACTORS, 4, &OpenGate);
    same(&rt, outcome, Ok(()));
    let mut replies = Replies {
        left: text.as_slice(),
        accepted: 0,
    };
    holds_for(&rt, &"a world", replies.takes("formatted\n"));
    for file in 1..=ACTORS {
        let made = format!(in alloc; "done {file}.1\n")?;
        holds_for(&rt, &file, replies.takes(made.as_str()));
    }
    let reports = reports_of(&rt, alloc, &mut replies)?;
    holds_for(&rt, &replies.accepted, replies.left == reports.as_bytes());
    Ok(())
}
