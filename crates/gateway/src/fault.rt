// What a gateway's caller is told where a call is refused: the wire's fault inside a session's inside the gateway's.
ghost use Rattle.std.specs.Prelude.{◌≡◌};
ghost use Rattle.gateway.specs.Faults.{number, offset, session_number, session_offset};

use answers::answer::Reason;
use layout::fault::Fault;
use refusals::Turned;
use thiserror::Error;

/// Why a line is not served.
#[derive(Clone, Copy, Debug, PartialEq, Error)]
pub enum SessionFault {
    /// No Logon was accepted on the channel, or it was closed since.
    #[error("no logon was accepted on this channel")]
    NotLoggedOn,
    /// What was given is no message.
    #[error("{0}")]
    Wire(Fault),
}

/// Why a call is refused. All stands as before it, but that a message's fault leaves a Reject in the reply.
#[derive(Clone, Copy, Debug, PartialEq, Error)]
pub enum GatewayFault {
    /// The buffer may have too few bytes for a message.
    #[error("the buffer is shorter than 512 bytes")]
    ShortBuffer,
    #[error("there is no such line")]
    NoSuchLine,
    #[error("{0}")]
    Session(SessionFault),
    /// Too few places are free for the reports of the call.
    #[error("too few places are free for the reports")]
    NoPlace,
    #[error("as many trades were made as a day has room for")]
    TradesFull,
    #[error("there is no such trade")]
    NoSuchTrade,
    #[error("the trade was cancelled before")]
    AlreadyCancelled,
}

impl From<Fault> for SessionFault {
    ghost use Rattle.gateway.specs.declared.fault.SessionFault.TheVariants.{Wire};

    ghost from_gives = { λ e r. r ≡ Wire e };

    fn from(fault: Fault) -> SessionFault {
        SessionFault::Wire(fault)
    }
}

impl From<SessionFault> for GatewayFault {
    ghost use Rattle.gateway.specs.declared.fault.GatewayFault.TheVariants.{Session};

    ghost from_gives = { λ e r. r ≡ Session e };

    fn from(fault: SessionFault) -> GatewayFault {
        GatewayFault::Session(fault)
    }
}

impl SessionFault {
    /// The number of the check that failed.
    pub fn number(self) -> u8
        ensures { result ≡ session_number self }
    {
        match self {
            SessionFault::NotLoggedOn => Reason::NotLoggedOn.number(),
            SessionFault::Wire(fault) => fault.number(),
        }
    }

    /// Where in the message it failed, if it is a check of the message's.
    pub fn offset(self) -> Option<usize>
        ensures { result ≡ session_offset self }
    {
        match self {
            SessionFault::NotLoggedOn => None,
            SessionFault::Wire(fault) => Some(fault.offset()),
        }
    }
}

impl GatewayFault {
    /// The number of the check that failed.
    pub fn number(self) -> u8
        ensures { result ≡ number self }
    {
        match self {
            GatewayFault::ShortBuffer => 6,
            GatewayFault::NoSuchLine => 14,
            GatewayFault::Session(fault) => fault.number(),
            GatewayFault::NoPlace => Turned::NoPlace.number(),
            GatewayFault::TradesFull => 41,
            GatewayFault::NoSuchTrade => 42,
            GatewayFault::AlreadyCancelled => 43,
        }
    }

    /// Where in the message it failed, if it is a check of the message's. The reply then holds a Reject.
    pub fn offset(self) -> Option<usize>
        ensures { result ≡ offset self }
    {
        match self {
            GatewayFault::Session(fault) => fault.offset(),
            _ => None,
        }
    }
}
