//! What the words of a command line ask for.

ghost use Rattle.std.specs.Prelude.{◌≡◌, false, map, IfErr, IfOk};
ghost use Rattle.clap.specs.Words.{FailsBy, app_of, fault_of, found_of, kind_of, matches_of, rows_of, rule_of};
ghost use Rattle.nv_base.specs.Limits.{IsFirstBad, first_bad_field};
ghost use Rattle.nv_mount_tool.specs.CommandLine.{command_line, flag_in, number_in, number_rule, numbers_of, options_of, program};

use clap::builder::ValueParser;
use clap::error::ErrorKind;
use clap::{Arg, ArgAction, ArgMatches, Command, Error, value_parser};
use nv_base::{Fault, Geometry, GeometryNumbers};
use std::alloc::{AllocError, Global};
use std::convert::AsStr;

const PROGRAM: &str = "novamount";

const ABOUT: &str = "Answers the requests of a kernel for a file system that is kept in memory";

const AFTER_HELP: &str = "\
A shell opens /dev/fuse, mounts with that descriptor, and runs the program with it as standard input
and output:

  exec 3<>/dev/fuse
  mount -i -t fuse.nova nova DIR -o fd=3,rootmode=40000,user_id=0,group_id=0,default_permissions
  novamount <&3 >&3 3>&-

All files end with the mount, and so do times and owners. 'mkdir DIR/.snapshots/NAME' makes a
snapshot of all, which can be read there, and 'rmdir' drops it.

Exit status: 0 once it is unmounted, 1 after a fault, 2 for a command line that is refused.";

const BLOCKS: &str = "blocks";

const INODES: &str = "inodes";

const SNAPS: &str = "snaps";

const NOW: &str = "now";

const AUDIT: &str = "audit";

/// What a command line asks for.
#[derive(Clone, Copy, Debug)]
pub(crate) struct Options {
    blocks: u64,
    inodes: u64,
    snaps: u64,
    /// The time of all requests, in seconds since 1970, if it is not the clock's.
    pub(crate) now: Option<u64>,
    /// Whether the world is audited in the end.
    pub(crate) audit: bool,
}

impl Options {
    /// Reads the words of a command line, of which the first is the program's own name.
    ///
    /// An error is a request for help or the version, why the words are refused, or want of memory.
    pub(crate) fn read<S: AsStr>(alloc: Global, words: &[S]) -> Result<Options, Error>
        // Each option has the number that the words give it, or its default.
        ensures ok { IfOk result (λ options. options
            ≡ options_of (matches_of command_line (map S.text words.now))) }
        // Words are refused by what the command line says of them.
        ensures kinds { FailsBy (fault_of command_line (map S.text words.now)) result }
    {
        match described(alloc)?.try_get_matches_from(words) {
            Ok(matches) => Ok(options_in(&matches)),
            Err(error) => Err(error),
        }
    }

    /// The geometry of the file system.
    pub(crate) fn geometry(self) -> Result<Geometry, Fault>
        // Its numbers are those of the options, with blocks of 4,096 bytes.
        ensures ok { IfOk result (λ geometry. geometry.numbers ≡ numbers_of self) }
        // Another geometry is refused only where the numbers are out of their limits.
        ensures err { IfErr result (λ fault. IsFirstBad fault (first_bad_field (numbers_of self))) }
    {
        Geometry::checked(GeometryNumbers {
            blocks: self.blocks,
            cpus: 1,
            block: 4_096,
            page: 63,
            inodes: self.inodes,
            snaps: self.snaps,
            actors: 1,
        })
    }
}

/// The options that matches give.
fn options_in(matches: &ArgMatches<'_>) -> Options
    // Each has its number, or its default.
    ensures { result ≡ options_of (rows_of (found_of matches.now)) }
{
    Options {
        blocks: number_in(matches, BLOCKS).unwrap_or(262_144),
        inodes: number_in(matches, INODES).unwrap_or(65_536),
        snaps: number_in(matches, SNAPS).unwrap_or(64),
        now: number_in(matches, NOW),
        audit: flag_in(matches, AUDIT),
    }
}

/// The number of an option, if it is given.
fn number_in(matches: &ArgMatches<'_>, name: &str) -> Option<u64>
    // It is the number that its text is in decimal.
    ensures { result ≡ number_in name.now (rows_of (found_of matches.now)) }
{
    matches.get_one::<u64>(name)
}

/// Whether an option without a value is given.
fn flag_in(matches: &ArgMatches<'_>, name: &str) -> bool
    // It is given where its text is `true`.
    ensures { result ≡ flag_in name.now (rows_of (found_of matches.now)) }
{
    match matches.get_one::<bool>(name) {
        Some(given) => given,
        None => false,
    }
}

/// An option with a number.
fn number<'a>(
    alloc: Global,
    name: &'static str,
    numbers: ValueParser<'a>,
    help: &'static str,
) -> Arg<'a>
    // It has a long name, and takes one number of these.
    ensures rule { rule_of result ≡ number_rule name.now numbers.entry }
    ensures plain { result.global ≡ false }
{
    Arg::new(alloc, name)
        .long(name)
        .value_name("N")
        .value_parser(numbers)
        .help(help)
}

/// The program without its options.
fn program<'a>(alloc: Global) -> Result<Command<'a>, AllocError>
    // It has a name and a version.
    ensures { IfOk result (λ command. app_of command ≡ program) }
{
    Ok(
        Command::new(alloc, PROGRAM)
            .bin_name(PROGRAM)?
            .version("0.1.0")
            .about(ABOUT)
            .after_help(AFTER_HELP),
    )
}

/// The program's command line.
fn described<'a>(alloc: Global) -> Result<Command<'a>, Error>
    // It has these options, and no others.
    ensures ok { IfOk result (λ command. app_of command ≡ command_line) }
    ensures err { IfErr result (λ error. kind_of error ≡ ErrorKind.OutOfMemory) }
{
    let blocks = number(
        alloc,
        BLOCKS,
        value_parser!(u64).range(2..=1_048_576),
        "How many blocks of 4,096 bytes there are [default: 262144]",
    );
    let inodes = number(
        alloc,
        INODES,
        value_parser!(u64).range(1..=65_536),
        "How many files and directories there may be [default: 65536]",
    );
    let snaps = number(
        alloc,
        SNAPS,
        value_parser!(u64).range(1..=1_024),
        "How many snapshots there may be [default: 64]",
    );
    let now = number(
        alloc,
        NOW,
        value_parser!(u64).range(0..=9_223_372_036),
        "The time of all requests, in seconds since 1970 [default: the clock's]",
    );
    let audit = Arg::new(alloc, AUDIT)
        .long(AUDIT)
        .action(ArgAction::SetTrue)
        .help("Compare the file system with one scan of its logs in the end");
    let command = program(alloc)?
        .arg(blocks)?
        .arg(inodes)?
        .arg(snaps)?
        .arg(now)?
        .arg(audit)?;
    Ok(command)
}
