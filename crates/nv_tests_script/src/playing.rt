//! Scripts whose lines are given one by one, and what each of them is answered.

use nv_base::Fault;
use nv_script::WriteCounter;
use nv_script::fault::LineFault;
use nv_script::feed::MAX_LINE_BYTES;
use nv_script::player::{Player, ending_of};
use std::alloc::{AllocError, Global};
use std::test::Fail;

/// No answer here has more bytes. So its text takes no memory while a growth may be refused.
const TEXT_BYTES: usize = 262_144;

/// A script while it is played, and what its last line was answered.
#[derive(Drop)]
pub struct Playing {
    player: Player,
    text: Vec<u8>,
}

impl Playing {
    pub fn new(alloc: Global) -> Result<Playing, AllocError> {
        Ok(Playing {
            player: Player::new(alloc)?,
            text: Vec::with_capacity(alloc, TEXT_BYTES)?,
        })
    }

    /// Plays a line, which has no line end. Its answer is the text then.
    pub fn answer(&mut self, alloc: Global, line: &[u8]) -> Result<(), Fault> {
        self.text.clear();
        let played = play_line(alloc, &mut self.player, line, &mut self.text);
        write_gathered(&mut self.player, &mut self.text)?;
        match played {
            Ok(()) => Ok(()),
            Err(fault) => Err(ending_of(1, fault)),
        }
    }

    /// What the last line was answered.
    pub fn text(&self) -> &[u8] {
        self.text.as_slice()
    }

    /// What several lines are answered. Where there is no world they are not given.
    pub fn answers(&mut self, alloc: Global, lines: &[&[u8]]) -> Result<Vec<u8>, Fail> {
        let mut all = Vec::new(alloc);
        if self.player.world.is_none() {
            return Ok(all);
        }
        for line in lines {
            self.answer(alloc, line)?;
            all.extend_from_slice(self.text.as_slice())?;
        }
        Ok(all)
    }
}

/// Plays a line. No clause says here what it does, so that no test carries that along.
fn play_line(
    alloc: Global,
    player: &mut Player,
    line: &[u8],
    text: &mut Vec<u8>,
) -> Result<(), LineFault> {
    let mut writer = WriteCounter::new(text);
    player.play_line(alloc, line, &mut writer)
}

/// Writes what is gathered.
fn write_gathered(player: &mut Player, text: &mut Vec<u8>) -> Result<(), Fault> {
    let mut writer = WriteCounter::new(text);
    player.outbox.end(&mut writer, Ok(()))
}

/// The next line of a script without its line end, and what stands behind it. There is none where the rest has no line end, or
/// too many bytes before it.
pub fn next_line(script: &[u8]) -> Option<(&[u8], &[u8])> {
    let end = script.iter().position(|byte| *byte == b'\n')?;
    if end > MAX_LINE_BYTES {
        return None;
    }
    let (line, rest) = script.split_at(end);
    let (_, behind) = rest.split_first()?;
    Some((line, behind))
}

/// The word of a line at a place, counted from 0.
pub fn word(line: &[u8], place: usize) -> &[u8] {
    let mut at = 0usize;
    for word in line.split(|byte| *byte == b' ') {
        if at == place {
            return word;
        }
        at = at.saturating_add(1);
    }
    b""
}

/// What stands behind the first word of a line, with the space before it.
pub fn behind_first_word(line: &[u8]) -> &[u8] {
    match line.iter().position(|byte| *byte == b' ') {
        Some(end) => line.split_at(end).1,
        None => b"",
    }
}
