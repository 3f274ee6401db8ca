//! Lines of which answers alone are told.

use crate::act::{play_line, tell};
use crate::command::Command;
use crate::counted::CountedWrite;
use crate::echo::{Echo, Telling, push_echo_by};
use crate::fault::LineFault;
use crate::outbox::Outbox;
use crate::teller::{CommandTeller, LineTeller};
use nv_core::World;
use std::alloc::{AllocError, Global};

/// Tells answers alone, behind their echo or without one.
#[derive(Clone, Copy, Debug, PartialEq, Eq, Drop)]
pub struct Answers;

impl CommandTeller for Answers {
    ghost use Rattle.nv_script.specs.declared.trace.Trace.TheVariants.{Off};

    ghost form = { Off };

    fn tell(
        &self,
        world: &mut World,
        _number: u64,
        command: Command,
        out: &mut Vec<u8>,
    ) -> Result<(), AllocError> {
        tell(world, command, out)
    }
}

impl LineTeller for Answers {
    ghost use Rattle.nv_script.specs.declared.trace.Trace.TheVariants.{Off};

    ghost form = { Off };

    fn push_head(
        &self,
        echo: Echo,
        number: u64,
        line: &[u8],
        out: &mut Vec<u8>,
    ) -> Result<(), AllocError> {
        push_echo_by(echo, number, line, out)
    }

    fn play_line<W: CountedWrite>(
        &self,
        alloc: Global,
        world: &mut Option<World>,
        line: &[u8],
        telling: Telling<'_>,
        out: &mut Vec<u8>,
        outbox: &mut Outbox,
        writer: &mut W,
    ) -> Result<(), LineFault> {
        match play_line(self, alloc, world, line, telling, out, outbox, writer) {
            Ok(_asked) => Ok(()),
            Err(fault) => Err(fault),
        }
    }
}
