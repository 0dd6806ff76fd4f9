// The answer to a Logon.
ghost use Rattle.std.specs.Prelude.{◌≡◌, OnOk};
ghost use Rattle.link.specs.Replies.{code_in, ReplyIn, Accepted, Became, Replied};

use crate::offline::Offline;
use crate::trading::Trading;
use layout::fault::Fault;
use session_messages::logon::Logon;
use texts::fixed::FixedText;
use wire::kinds::{Channel, Kind};
use wire::message::{Message, read};

/// A link that has written a Logon and awaits the answer.
#[derive(Debug, Drop)]
pub struct Awaiting {
    pub(crate) comp_id: FixedText<25>,
}

/// What bytes are that are no Logon Reply.
#[derive(Clone, Copy, Debug, PartialEq)]
pub enum NoReply {
    /// No message that a follower reads.
    Fault(Fault),
    /// A message of another kind.
    Other(Kind),
}

/// What a link is whose Logon is not accepted.
#[derive(Debug, Drop)]
pub enum NotTrading {
    /// The Logon was refused, with this number.
    Refused(Offline, i32),
    /// It is not answered yet.
    Unanswered(Awaiting, NoReply),
}

// The reject code of a Logon Reply.
fn code_in(message: &Message<'_>) -> Result<i32, NoReply>
    ensures { result ≡ code_in message.now }
{
    match message {
        Message::LogonReply(reply) => Ok(reply.reject_code),
        _ => Err(NoReply::Other(message.kind())),
    }
}

#[tactic(auto, using(crate::proofs::Reading::read, crate::proofs::Reading::refused))]
fn reply_in(bytes: &[u8]) -> Result<i32, NoReply>
    ensures { ReplyIn bytes.now result }
{
    match read(Channel::Follower, bytes) {
        Ok(message) => code_in(&message),
        Err(fault) => Err(NoReply::Fault(fault)),
    }
}

impl Awaiting {
    pub(crate) fn of(logon: &Logon<'_>) -> Awaiting
        ensures { result.comp_id.bytes ≡ logon.now.comp_id.field.now }
    {
        Awaiting {
            comp_id: logon.comp_id.keep(),
        }
    }

    /// Takes the bytes of the answer to the Logon: an accepting one makes the link trade, a refusing one takes it off
    /// the line, and what is no Logon Reply leaves it as it is.
    #[tactic(auto, using(crate::proofs::Reading::accepted))]
    pub fn reply(self, bytes: &[u8]) -> Result<Trading, NotTrading>
        ensures becomes { Replied self bytes.now result }
        ensures accepted { OnOk result (Accepted bytes.now) }
    {
        self.became(reply_in(bytes))
    }

    fn became(self, reply: Result<i32, NoReply>) -> Result<Trading, NotTrading>
        ensures { Became self reply result }
    {
        match reply {
            Ok(code) if code == 0 => Ok(Trading {
                comp_id: self.comp_id,
                code,
            }),
            Ok(code) => Err(NotTrading::Refused(Offline, code)),
            Err(why) => Err(NotTrading::Unanswered(self, why)),
        }
    }

    /// The CompID that the Logon names.
    pub fn comp_id(&self) -> FixedText<25>
        ensures { result ≡ self.now.comp_id }
    {
        self.comp_id
    }

    /// The line was lost.
    pub fn lost(self) -> Offline
        ensures { result ≡ record {} }
    {
        Offline
    }
}
