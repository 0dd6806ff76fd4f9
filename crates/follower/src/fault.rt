// Why a call of a follower is refused.
ghost use Rattle.std.specs.Prelude.{◌≡◌};
ghost use Rattle.follower.specs.Faults.{follower_number};

use layout::fault::Fault;
use reports::standings::FoldRefusal;
use thiserror::Error;

/// The first check of a call that fails.
#[derive(Clone, Copy, Debug, PartialEq, Error)]
pub enum FollowerFault {
    /// The bytes are no message that a follower reads; the fault says the rule and the offset.
    #[error("{0}")]
    Message(Fault),
    /// The buffer has fewer than 512 bytes.
    #[error("the buffer has fewer than 512 bytes")]
    Buffer,
    /// The follower is not up.
    #[error("the follower is not up")]
    NotUp,
    /// There is no such partition, or it is not the download's.
    #[error("there is no such partition, or it is not that of the download")]
    Partition,
    /// A download is asked or runs already, or the message is of none that is.
    #[error("that is not what the download waits for")]
    OutOfTurn,
    /// The report does not fit what is known, or there is no room for its order.
    #[error("{0}")]
    Fold(FoldRefusal),
}

impl FollowerFault {
    /// The number of the check.
    pub fn number(self) -> u8
        ensures { result ≡ follower_number self }
    {
        match self {
            FollowerFault::Message(fault) => fault.number(),
            FollowerFault::Buffer => 6,
            FollowerFault::NotUp => 50,
            FollowerFault::Partition => 51,
            FollowerFault::OutOfTurn => 52,
            FollowerFault::Fold(refusal) => refusal.number(),
        }
    }
}

impl From<Fault> for FollowerFault {
    ghost use Rattle.follower.specs.declared.fault.FollowerFault.TheVariants.{Message};

    ghost from_gives = { λ e r. r ≡ Message e };

    fn from(fault: Fault) -> FollowerFault {
        FollowerFault::Message(fault)
    }
}

impl From<FoldRefusal> for FollowerFault {
    ghost use Rattle.follower.specs.declared.fault.FollowerFault.TheVariants.{Fold};

    ghost from_gives = { λ e r. r ≡ Fold e };

    fn from(refusal: FoldRefusal) -> FollowerFault {
        FollowerFault::Fold(refusal)
    }
}
