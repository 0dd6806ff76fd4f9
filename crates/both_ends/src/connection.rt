// How far a connection of the line has come.
ghost use Rattle.std.specs.Prelude.{◌≡◌};
ghost use Rattle.both_ends.specs.Connecting.{lost, up_in};

/// No connection counts; a Logon was accepted, and the follower is not up yet; or it is up.
#[derive(Clone, Copy, Drop)]
pub enum Connection {
    Away,
    Ready,
    Up,
}

impl Connection {
    /// Whether the follower is up.
    pub fn is_up(self) -> bool
        ensures { result ≡ up_in self }
    {
        matches!(self, Connection::Up)
    }

    /// What a lost line leaves: a follower that was up is away, and one that is yet to be up stays ready.
    pub fn lost(self) -> Connection
        ensures { result ≡ lost self }
    {
        match self {
            Connection::Up | Connection::Away => Connection::Away,
            Connection::Ready => Connection::Ready,
        }
    }
}
