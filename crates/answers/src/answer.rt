// What a gateway answers to a message, and its bytes.
ghost use Rattle.std.specs.Prelude.{◌≡◌, ◌≤◌, [], length, MatchOption};
ghost use Rattle.texts.specs.Bytes.{said};
ghost use Rattle.texts.specs.Says.{says};
ghost use Rattle.answers.specs.declared.answer.Answer.TheVariants as answer;
ghost use Rattle.wire.specs.declared.message.TheConstants.{BUFFER};
ghost use Rattle.answers.specs.Bytes.{answer_bytes, client_said};
ghost use Rattle.answers.specs.Numbers.{admission_number, reason_number};
ghost use Rattle.report_messages.specs.Sent.{Sent};
ghost use Rattle.answers.specs.Told.{Answers, AnswerTold};

use codes::session::AckResponse;
use layout::fault::Fault;
use refusals::{LogonRefusal, RequestRefusal, Turned};
use report_messages::sending::send;
use session_messages::logon_reply::LogonReply;
use session_messages::missed_message_request_ack::MissedMessageRequestAck;
use session_messages::reject::Reject;
use texts::fixed::FixedText;
use texts::text::Text;
use wire::message::Message;

/// Whether a Logon is accepted.
#[derive(Clone, Copy, Debug, PartialEq)]
pub enum Admission {
    Accepted,
    Refused(LogonRefusal),
}

/// Why a message is not taken.
#[derive(Clone, Copy, Debug, PartialEq)]
pub enum Reason {
    /// What was given is no message.
    Fault(Fault),
    /// No Logon was accepted on its channel.
    NotLoggedOn,
    /// A request for orders is turned down.
    Turned(Turned),
    /// A Missed Message Request is refused.
    Request(RequestRefusal),
}

/// A message that was not taken.
#[derive(Clone, Copy, Debug)]
pub struct Rejection {
    pub reason: Reason,
    /// Its type byte; 0 where that is not known.
    pub message_type: u8,
    /// Its Client Order ID, where it has one.
    pub client: Option<FixedText<20>>,
}

/// What a gateway answers to a message.
#[derive(Clone, Copy, Debug)]
pub enum Answer {
    /// No bytes.
    Silent,
    /// To a Logon.
    LogonReply(Admission),
    /// To a Missed Message Request.
    Ack(AckResponse),
    /// To any message that is not taken.
    Reject(Rejection),
}

impl Admission {
    /// The code of a Logon Reply: 0, or 11 to 13 where it is refused.
    pub fn number(self) -> u8
        ensures { result ≡ admission_number self }
    {
        match self {
            Admission::Accepted => 0,
            Admission::Refused(refusal) => refusal.number(),
        }
    }
}

impl Reason {
    /// The code of a Reject: 1 to 5 of what is no message, 10, 20, 29 or 30.
    pub fn number(self) -> u8
        ensures { result ≡ reason_number self }
    {
        match self {
            Reason::Fault(fault) => fault.number(),
            Reason::NotLoggedOn => 10,
            Reason::Turned(turned) => turned.number(),
            Reason::Request(refusal) => refusal.number(),
        }
    }
}

fn nothing<const N: usize>() -> FixedText<N>
    ensures { said result.bytes ≡ [] }
{
    FixedText::empty()
}

// A Client Order ID, lent, or the text that says nothing.
fn client_text<'a>(client: &'a Option<FixedText<20>>, nothing: &'a FixedText<20>) -> Text<'a, 20>
    requires { said nothing.now.bytes ≡ [] }
    ensures { says result ≡ client_said client.now }
{
    match client {
        Some(client) => client.as_text(),
        None => nothing.as_text(),
    }
}

impl Answer {
    // The message of the answer, if there is one: it gives no words for what no rule names.
    fn message<'a>(
        &'a self,
        nothing: &'a FixedText<30>,
        nobody: &'a FixedText<20>,
    ) -> Option<Message<'a>>
        requires nothing { said nothing.now.bytes ≡ [] }
        requires nobody { said nobody.now.bytes ≡ [] }
        ensures { MatchOption result (self.now ≡ answer.Silent) (λ m. Answers self.now m) }
    {
        match self {
            Answer::Silent => None,
            Answer::LogonReply(admission) => Some(Message::LogonReply(LogonReply {
                reject_code: i32::from(admission.number()),
                expiry_days: nothing.as_text(),
            })),
            Answer::Ack(response) => Some(Message::MissedMessageRequestAck(
                MissedMessageRequestAck {
                    response: *response,
                },
            )),
            Answer::Reject(rejection) => Some(Message::Reject(Reject {
                code: i32::from(rejection.reason.number()),
                reason: nothing.as_text(),
                message_type: rejection.message_type,
                client_order_id: client_text(&rejection.client, nobody),
            })),
        }
    }

    /// Writes the answer to the front of the buffer, and says how many bytes it has, which is 0 where there is no answer;
    /// those past it stay.
    #[tactic(auto, using(crate::proofs::Answering::sent, crate::proofs::Answering::told))]
    pub fn write(&self, out: &mut [u8]) -> usize
        requires { BUFFER ≤ length out.old }
        ensures sent { Sent (answer_bytes self.now) out.old out.new result }
        ensures told { AnswerTold self.now }
    {
        match self.message(&nothing(), &nothing()) {
            Some(message) => send(&message, out),
            None => 0,
        }
    }
}
