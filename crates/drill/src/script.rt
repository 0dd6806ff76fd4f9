// A script that is drilled: its lines, and which of them are calls.
use crate::silent::Silent;
use bench_play::failure::Failure;
use bench_play::play::{Play, Played};
use bench_words::mistake::Mistake;
use std::alloc::{AllocError, Global};
use std::io;

/// The lines of a script, without the bytes that end them, and the places of those that are calls behind its start.
#[derive(Drop)]
pub struct Script {
    lines: Vec<Vec<u8>>,
    calls: Vec<usize>,
}

impl Script {
    /// No line yet.
    pub fn new(heap: Global) -> Script {
        Script {
            lines: Vec::new(heap),
            calls: Vec::new(heap),
        }
    }

    /// One more line.
    pub fn push(&mut self, heap: Global, line: &[u8]) -> Result<(), AllocError> {
        let line = Vec::from_slice(heap, line)?;
        self.lines.push(line)?;
        Ok(())
    }

    /// The lines up to a place, and that one.
    pub fn until(&self, place: usize) -> &[Vec<u8>] {
        self.lines.get(..=place).unwrap_or(&self.lines)
    }

    /// What a line says.
    pub fn text(&self, place: usize) -> &str {
        match self.lines.get(place) {
            Some(line) => str::from_utf8(line).unwrap_or("?").trim(),
            None => "",
        }
    }

    /// The places of its calls.
    pub fn calls(&self) -> &[usize] {
        &self.calls
    }

    // Plays it whole, and finds its calls. Stops at the first mistake.
    fn walk(&mut self, play: &mut Play, heap: Global) -> io::Result<Result<(), Mistake>> {
        let rt = (Silent, heap);
        for (place, line) in self.lines.iter().enumerate() {
            let number = place.saturating_add(1);
            match play.line(&rt, line) {
                Ok(Played::Call) => self.calls.push(place)?,
                Ok(Played::Refused(check)) => return Ok(Err(Mistake::Refused(number, check))),
                Ok(Played::Other) => {}
                Err(Failure::Misread(why)) => return Ok(Err(Mistake::Line(number, why))),
                Err(Failure::Io(error)) => return Err(error),
            }
        }
        Ok(Ok(()))
    }

    /// Plays it whole once, with what it prints thrown away, and finds its calls, or the first mistake.
    pub fn rehearse(&mut self, heap: Global) -> io::Result<Result<(), Mistake>> {
        let mut play = Play::new(heap);
        let walked = self.walk(&mut play, heap);
        let fit = fitting(&play, &self.calls);
        play.close();
        match walked? {
            Ok(()) => Ok(fit),
            Err(mistake) => Ok(Err(mistake)),
        }
    }
}

// Whether a script that was played has all that a drill needs.
fn fitting(play: &Play, calls: &[usize]) -> Result<(), Mistake> {
    if !play.is_followed() {
        return Err(Mistake::NotFollowed);
    }
    if !play.is_started() {
        return Err(Mistake::NotStarted);
    }
    if !play.is_somebody() {
        return Err(Mistake::Nobody);
    }
    if calls.is_empty() {
        return Err(Mistake::NoCall);
    }
    Ok(())
}
