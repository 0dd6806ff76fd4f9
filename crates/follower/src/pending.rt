// The token of a download that was asked: whoever holds it owes that the download comes to its end.
ghost use Rattle.std.specs.Prelude.{◌≡◌, None};
ghost use Rattle.follower.specs.Owing.{owed, owing, awaited, handed};
ghost use Rattle.follower.specs.declared.pending.Pending.TheVariants.{Idle};

use crate::stage::Stage;
use codes::session::Partition;

/// A download that was asked and has not ended. Only a follower makes one and lets one go.
pub struct Download {
    partition: Partition,
}

/// What stands beside a follower: no download, or one whose end is owed. It may be dropped only where none is owed,
/// so that a program that lets an asked download go has no proof.
pub enum Pending {
    Idle,
    Owed(Download),
}

impl Drop for Pending {
    fn drop(self)
        requires { owed self ≡ None }
    {
        self.spend();
    }
}

impl Download {
    fn spend(self) {
        let Download { partition: _ } = self;
    }
}

impl Pending {
    // A download of a partition is asked.
    pub(crate) fn begin(self, partition: Partition) -> Pending
        requires { owed self ≡ None }
        ensures { result ≡ owing partition }
    {
        self.spend();
        Pending::Owed(Download { partition })
    }

    /// The partition of the download that is owed, if one is.
    pub fn owed(&self) -> Option<Partition>
        ensures { result ≡ owed self.now }
    {
        match self {
            Pending::Idle => None,
            Pending::Owed(download) => Some(download.partition),
        }
    }

    // What is owed after a call that began no download, by the stage before it and after it: the token is spent
    // where a download has ended.
    pub(crate) fn settle(self, before: Stage, after: Stage) -> Pending
        requires { awaited before ≡ None → awaited after ≡ None }
        ensures { result ≡ handed (awaited before) (awaited after) self }
    {
        match (before.awaited(), after.awaited()) {
            (Some(_), None) => self.end(),
            _ => self,
        }
    }

    fn end(self) -> Pending
        ensures { result ≡ Idle }
    {
        self.spend();
        Pending::Idle
    }

    fn spend(self) {
        match self {
            Pending::Idle => {}
            Pending::Owed(download) => download.spend(),
        }
    }
}
