// What the calls of a follower answer.
ghost use Rattle.std.specs.Prelude.{◌≡◌, Some};
ghost use Rattle.follower.specs.Answers.{live_text, recovered_text};

use std::fmt;

/// What became of a message that came live: its report was folded before, or is folded now, or is held until the
/// partition is level; or it passed, and has to be downloaded; or the message is no report.
#[derive(Clone, Copy, Debug, PartialEq)]
pub enum Live {
    Already,
    Folded,
    Held,
    Passed,
    Nothing,
}

/// What became of a message of the recovery channel: it begins or ends the download, or its report was folded
/// before or is folded now, or it says nothing of a download.
#[derive(Clone, Copy, Debug, PartialEq)]
pub enum Recovered {
    Begun,
    Ended,
    Already,
    Folded,
    Nothing,
}

impl Live {
    /// The word for it.
    pub fn text(self) -> &'static str
        ensures { result.now ≡ live_text self }
    {
        match self {
            Live::Already => "already",
            Live::Folded => "folded",
            Live::Held => "held",
            Live::Passed => "passed",
            Live::Nothing => "nothing",
        }
    }
}

impl Recovered {
    /// The word for it.
    pub fn text(self) -> &'static str
        ensures { result.now ≡ recovered_text self }
    {
        match self {
            Recovered::Begun => "begun",
            Recovered::Ended => "ended",
            Recovered::Already => "already",
            Recovered::Folded => "folded",
            Recovered::Nothing => "nothing",
        }
    }
}

impl fmt::Display for Live {
    ghost output = { λ answer. Some (live_text answer) };

    fn fmt<W: fmt::Write>(&self, f: &mut fmt::Formatter<W>) -> fmt::Result {
        f.write_str(self.text())
    }
}

impl fmt::Display for Recovered {
    ghost output = { λ answer. Some (recovered_text answer) };

    fn fmt<W: fmt::Write>(&self, f: &mut fmt::Formatter<W>) -> fmt::Result {
        f.write_str(self.text())
    }
}
