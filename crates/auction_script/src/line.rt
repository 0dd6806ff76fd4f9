// One line of a script, as the bytes that a program reads.
ghost use Rattle.std.specs.Prelude.{IfOk};
ghost use Rattle.auction_script.specs.Lines.{LineRead};

use crate::command;
use crate::command::{Command, Misread};
use bench_words::line::{is_skipped, parted};
use std::alloc::{AllocError, Global};

/// What a line of a script says.
#[derive(Clone, Copy, Debug, PartialEq)]
pub enum Line {
    /// It is blank, or a comment, whose first word begins with `#`.
    Skipped,
    Call(Command),
    Misread(Misread),
}

/// What a line says, given without the bytes that end it. One that is no text is misread like any other. Its one error
/// is want of memory.
pub fn read(heap: Global, line: &[u8]) -> Result<Line, AllocError>
    ensures { IfOk result (LineRead line.now) }
{
    let Some(words) = parted(heap, line)? else {
        return Ok(Line::Misread(Misread::Text));
    };
    if is_skipped(&words) {
        return Ok(Line::Skipped);
    }
    match command::read(&words) {
        Ok(call) => Ok(Line::Call(call)),
        Err(word) => Ok(Line::Misread(word)),
    }
}
