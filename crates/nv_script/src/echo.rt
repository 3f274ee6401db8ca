//! What stands before the answers to a line.

ghost use Rattle.std.specs.Prelude.{◌≡◌, ◌++◌, [], IsErr, OnOk, false};
ghost use Rattle.nv_script.specs.Echo.{before_answers, echo_line};
ghost use Rattle.nv_script.specs.Grammar.{is_skipped};
ghost use Rattle.nv_script.specs.Trace.{head_by};

use crate::command::is_skipped;
use crate::teller::LineTeller;
use crate::word::push_number;
use std::alloc::AllocError;

/// Whether the line of a command stands before its answers.
#[derive(Clone, Copy, Debug, PartialEq, Eq, Drop)]
pub enum Echo {
    /// Answers alone are written.
    Off,
    /// The number and the text of the line come first.
    On,
}

/// How a line is told: its number, and what stands before its answers.
#[derive(Clone, Copy, Drop)]
pub struct Telling<'a> {
    pub number: u64,
    pub head: &'a [u8],
}

impl<'a> Telling<'a> {
    /// Answers alone: to them the number is nothing.
    pub(crate) fn answers() -> Telling<'a>
        ensures number { result.number ≡ 0 }
        ensures head { result.head.now ≡ [] }
    {
        Telling {
            number: 0,
            head: &[],
        }
    }
}

/// Makes what stands before the answers to the line with this number, in place of what `head` held.
#[inline(always)]
pub(crate) fn make_head<T: LineTeller>(
    teller: &T,
    echo: Echo,
    number: u64,
    line: &[u8],
    head: &mut Vec<u8>,
) -> Result<(), AllocError>
    ensures made { OnOk result (head.new.items ≡ head_by T.form echo number line.now) }
    ensures command { IsErr result → is_skipped line.now ≡ false }
{
    head.clear();
    if is_skipped(line) {
        return Ok(());
    }
    teller.push_head(echo, number, line, head)
}

/// Adds the echo of a command, where it has one.
pub fn push_echo_by(
    echo: Echo,
    number: u64,
    line: &[u8],
    out: &mut Vec<u8>,
) -> Result<(), AllocError>
    requires { is_skipped line.now ≡ false }
    ensures { OnOk result (out.new.items ≡ out.old.items ++ before_answers echo number line.now) }
{
    match echo {
        Echo::On => push_echo(out, number, line),
        Echo::Off => Ok(()),
    }
}

/// Adds the echo of a command.
fn push_echo(out: &mut Vec<u8>, number: u64, line: &[u8]) -> Result<(), AllocError>
    ensures { OnOk result (out.new.items ≡ out.old.items ++ echo_line number line.now) }
{
    out.extend_from_slice(b"> ")?;
    push_number(out, number)?;
    out.push(b' ')?;
    out.extend_from_slice(line)?;
    Ok(out.push(b'\n')?)
}
