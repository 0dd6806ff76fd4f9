// Whether a follower is up, and how far its download is then.
ghost use Rattle.std.specs.Prelude.{◌≡◌};

use crate::stage::Stage;

/// Not up, so with no download; or up, with its download.
#[derive(Clone, Copy, Debug, PartialEq)]
pub enum Line {
    Away,
    Up(Stage),
}

impl Line {
    ghost use Rattle.follower.specs.Lines.{up_on, stage_on};

    /// Whether the follower is up.
    pub fn is_up(self) -> bool
        ensures { result ≡ up_on self }
    {
        match self {
            Line::Away => false,
            Line::Up(_) => true,
        }
    }

    /// The download; none where it is not up.
    pub fn download(self) -> Stage
        ensures { result ≡ stage_on self }
    {
        match self {
            Line::Away => Stage::Idle,
            Line::Up(stage) => stage,
        }
    }
}
