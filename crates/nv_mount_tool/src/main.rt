//! The program `novamount`: answers the requests of a kernel from a file system that is kept in memory.
//!
//! A shell opens `/dev/fuse`, mounts with that descriptor and runs the program with it as standard input and output. One
//! read gives one request, and one write takes one reply. Requests in a file are cut where their lengths tell.
#![tactic(auto)]

mod command_line;
mod serve;
mod stream;
mod world;

ghost use Rattle.std.specs.Prelude.{IfOk};
ghost use Rattle.nv_mount_tool.specs.Answered.{IsNewMount};
ghost use Rattle.nv_mount_tool.specs.CommandLine.{numbers_of};
ghost use Rattle.nv_mount_tool.specs.Serve.{Attends};

use anyhow::{Result, bail};
use command_line::Options;
use nv_core::World;
use nv_mount_answers::Time;
use nv_mounted::Mount;
use serve::{Serving, time_of};
use std::alloc::Global;
use std::env::Env;
use std::io::{Read, Write};
use std::process::ExitCode;
use std::time::Clock;
use std::{env, io};
use world::OneActor;

/// A new file system with the numbers of the command line, mounted.
fn mounted(alloc: Global, options: Options, now: Time) -> Result<Mount<OneActor>>
    // It is a new mount of a world that is made anew.
    ensures { IfOk result (λ mount. IsNewMount (numbers_of options) now mount) }
{
    let Ok(world) = World::format(alloc, options.geometry()?) else {
        bail!("there is no memory for so many '--blocks' and '--inodes'");
    };
    let Ok(mount) = Mount::new(alloc, OneActor::new(world), now) else {
        bail!(
            "there is no room for the root and a directory of the mount: '--blocks' or '--inodes' are too few"
        );
    };
    Ok(mount)
}

/// Compares the world with one scan of its logs, and tells how many requests there were.
fn audit<R: Eprint>(rt: &R, serving: &Serving) -> Result<()> {
    serving.mount().core().audit()?;
    let (answered, dropped) = (serving.answered(), serving.dropped());
    eprintln!(rt; "novamount: {answered} requests, {dropped} replies dropped, audit true")?;
    Ok(())
}

/// Answers requests of a reader up to its end, or until they are unmounted. Tells whether they were unmounted.
fn attend<R: AllocGlobal + Clock + Eprint, S: Read, W: Write>(
    rt: &R,
    options: Options,
    reader: &mut S,
    writer: &mut W,
) -> Result<bool>
    // All that is read is requests. From a new mount on each is served in turn, and their replies are written.
    ensures { IfOk result (λ unmounted. Attends options unmounted (S.remaining reader.old)
        (S.remaining reader.new) (W.contents writer.old) (W.contents writer.new)) }
{
    let alloc = rt.alloc();
    let mount = mounted(alloc, options, time_of(rt, options.now))?;
    let mut serving = Serving::new(alloc, mount)?;
    let unmounted = serving.serve(rt, options.now, reader, writer)?;
    if options.audit {
        audit(rt, &serving)?;
    }
    Ok(unmounted)
}

fn run<R: AllocGlobal + Clock + Env + Input + Print + Eprint>(rt: &R) -> Result<bool> {
    let alloc = rt.alloc();
    let words: Vec<String> = env::args(rt)?.collect(alloc)?;
    match Options::read(alloc, words.as_slice()) {
        Ok(options) => {
            let mut reader = rt.reader();
            let mut writer = io::writer(rt);
            let _unmounted = attend(rt, options, &mut reader, &mut writer)?;
        }
        Err(error) => {
            error.print(rt)?;
            return Ok(!error.use_stderr());
        }
    }
    Ok(true)
}

fn main(rt: HostRuntime) -> ExitCode {
    match run(&rt) {
        Ok(true) => ExitCode::from(0),
        Ok(false) => ExitCode::from(2),
        Err(error) => {
            let _told = eprintln!(&rt; "novamount: {error:?}");
            ExitCode::from(1)
        }
    }
}
