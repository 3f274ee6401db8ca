//! Who tells the events of lines: as lines of words, or all as JSON.

use crate::act::tell_traced;
use crate::json::push_text_line;
use crate::json_act;
use nv_core::World;
use nv_script::act::play_line;
use nv_script::command::Command;
use nv_script::fault::LineFault;
use nv_script::outbox::Outbox;
use nv_script::{CommandTeller, CountedWrite, Echo, LineTeller, Telling, push_echo_by};
use std::alloc::{AllocError, Global};

/// Tells the events of commands as lines of words, before the answers.
#[derive(Clone, Copy, Debug, PartialEq, Eq, Drop)]
pub(crate) struct Events;

impl CommandTeller for Events {
    ghost use Rattle.nv_script.specs.declared.trace.Trace.TheVariants.{Text};

    ghost form = { Text };

    fn tell(
        &self,
        world: &mut World,
        number: u64,
        command: Command,
        out: &mut Vec<u8>,
    ) -> Result<(), AllocError> {
        tell_traced(world, number, command, out)
    }
}

impl LineTeller for Events {
    ghost use Rattle.nv_script.specs.declared.trace.Trace.TheVariants.{Text};

    ghost form = { Text };

    fn push_head(
        &self,
        echo: Echo,
        number: u64,
        line: &[u8],
        out: &mut Vec<u8>,
    ) -> Result<(), AllocError> {
        push_echo_by(echo, number, line, out)
    }

    fn play_line<W: CountedWrite>(
        &self,
        alloc: Global,
        world: &mut Option<World>,
        line: &[u8],
        telling: Telling<'_>,
        out: &mut Vec<u8>,
        outbox: &mut Outbox,
        writer: &mut W,
    ) -> Result<(), LineFault> {
        match play_line(self, alloc, world, line, telling, out, outbox, writer) {
            Ok(_asked) => Ok(()),
            Err(fault) => Err(fault),
        }
    }
}

/// Tells lines, their events and their answers as JSON.
#[derive(Clone, Copy, Debug, PartialEq, Eq, Drop)]
pub(crate) struct Objects;

impl LineTeller for Objects {
    ghost use Rattle.nv_script.specs.declared.trace.Trace.TheVariants.{Json};

    ghost form = { Json };

    fn push_head(
        &self,
        _echo: Echo,
        number: u64,
        line: &[u8],
        out: &mut Vec<u8>,
    ) -> Result<(), AllocError> {
        push_text_line(out, number, line)
    }

    fn play_line<W: CountedWrite>(
        &self,
        alloc: Global,
        world: &mut Option<World>,
        line: &[u8],
        telling: Telling<'_>,
        out: &mut Vec<u8>,
        outbox: &mut Outbox,
        writer: &mut W,
    ) -> Result<(), LineFault> {
        json_act::play_line(alloc, world, line, telling, out, outbox, writer)
    }
}
