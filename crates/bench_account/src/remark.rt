// What a person is told of the line that is followed, where there is no answer to tell.
ghost use Rattle.std.specs.Prelude.{◌≡◌, Some};
ghost use Rattle.bench_account.specs.Remarks.{remark_of};

use std::fmt;

/// Why nothing came of what was asked of a line.
#[derive(Clone, Copy, Debug, PartialEq)]
pub enum Remark {
    /// No message of that channel is under way.
    NothingUnderWay,
    /// So many messages have not come.
    NoneCame,
    /// The follower is not level, and no download brings more.
    NotLevel,
}

impl Remark {
    /// The sentence that a person reads.
    pub fn text(self) -> &'static str
        ensures { result.now ≡ remark_of self }
    {
        match self {
            Remark::NothingUnderWay => "nothing is under way",
            Remark::NoneCame => "no such message has come",
            Remark::NotLevel => "not level: no more comes of its downloads",
        }
    }
}

impl fmt::Display for Remark {
    ghost output = { λ why. Some (remark_of why) };

    fn fmt<W: fmt::Write>(&self, f: &mut fmt::Formatter<W>) -> fmt::Result {
        f.write_str(self.text())
    }
}
