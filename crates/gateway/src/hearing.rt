// What a message gets, and what it leaves.
ghost use Rattle.std.specs.Prelude.{◌≡◌, ◌<◌, ◌≤◌, [], true, length};
ghost use Rattle.wire.specs.declared.message.TheConstants.{BUFFER};
ghost use Rattle.sessions.specs.Sessions.{on};
ghost use Rattle.gateway.specs.Doing.{Comes, Stays};
ghost use Rattle.gateway.specs.State.{session, venue_of};
ghost use Rattle.requests.specs.Deciding.{spare};
ghost use Rattle.gateway.specs.Hearing.{Took, Understands, Hears, answer_for, client_of, fault_rejection, firm, outcome_of, last_of, logout, missed_on, partition_of, reader_of, rejection, taken, type_told};

use crate::fault::{GatewayFault, SessionFault};
use crate::gateway::Gateway;
use answers::answer::{Answer, Reason, Rejection};
use codes::session::Partition;
use layout::fault::Fault;
use matching::matcher::Matcher;
use refusals::Turned;
use requests::cancel::cancel;
use requests::mass_cancel::mass_cancel;
use requests::new_order::new_order;
use requests::replace::replace;
use session_messages::missed_message_request::MissedMessageRequest;
use sessions::session::Channel;
use store::Store;
use texts::fixed::FixedText;
use texts::values::Time;
use wire::kinds::Channel as Reader;
use wire::message::{Message, read};

// Who reads on a channel.
fn reader_of(channel: Channel) -> Reader
    ensures { result ≡ reader_of channel }
{
    match channel {
        Channel::RealTime => Reader::RealTime,
        Channel::Recovery => Reader::Recovery,
    }
}

// The Client Order ID of a request.
fn client_of(m: &Message<'_>) -> Option<FixedText<20>>
    ensures { result ≡ client_of m.now }
{
    match m {
        Message::NewOrder(m) => Some(m.client_order_id.text.keep()),
        Message::OrderCancelRequest(m) => Some(m.client_order_id.text.keep()),
        Message::OrderCancelReplaceRequest(m) => Some(m.client_order_id.text.keep()),
        Message::OrderMassCancelRequest(m) => Some(m.client_order_id.text.keep()),
        _ => None,
    }
}

fn rejection(reason: Reason, m: &Message<'_>) -> Answer
    ensures { result ≡ rejection reason m.now }
{
    Answer::Reject(Rejection {
        reason,
        message_type: m.kind().letter(),
        client: client_of(m),
    })
}

// The type byte of what is no message, where it is one of the channel's; else 0.
fn type_told(fault: Fault, bytes: &[u8]) -> u8
    ensures { result ≡ type_told fault bytes.now }
{
    match fault {
        Fault::Short | Fault::Start | Fault::Unknown => 0,
        Fault::Length | Fault::Field(_) => bytes.get(3).copied().unwrap_or(0),
    }
}

fn fault_rejection(fault: Fault, bytes: &[u8]) -> Answer
    ensures { result ≡ fault_rejection fault bytes.now }
{
    Answer::Reject(Rejection {
        reason: Reason::Fault(fault),
        message_type: type_told(fault, bytes),
        client: None,
    })
}

// Reads a message, or answers what is none with a Reject.
fn understand<'a>(
    channel: Channel,
    bytes: &'a [u8],
    reply: &mut [u8],
) -> Result<Message<'a>, SessionFault>
    requires { BUFFER ≤ length reply.old }
    ensures { Understands channel bytes.now reply.old result reply.new }
{
    match read(reader_of(channel), bytes) {
        Ok(message) => Ok(message),
        Err(fault) => {
            let _ = fault_rejection(fault, bytes).write(reply);
            Err(SessionFault::from(fault))
        }
    }
}

// A partition by its number.
fn partition_of(number: i8) -> Option<Partition>
    ensures { result ≡ partition_of number }
{
    match u8::try_from(number) {
        Ok(1) => Some(Partition::One),
        Ok(2) => Some(Partition::Two),
        Ok(3) => Some(Partition::Three),
        _ => None,
    }
}

// The answer to a request for orders.
fn answer_for(m: &Message<'_>, done: Result<(), Turned>) -> Answer
    ensures { result ≡ answer_for m.now done }
{
    match done {
        Ok(()) => Answer::Silent,
        Err(turned) => rejection(Reason::Turned(turned), m),
    }
}

impl<M: Matcher, S: Store> Gateway<M, S> {
    pub(crate) fn firm(&self, line: usize) -> u32
        ensures { result ≡ firm self.now.state line }
    {
        match self.participants.get(line) {
            Some(participant) => participant.firm,
            None => 0,
        }
    }

    fn last_of(&self, partition: Option<Partition>) -> u32
        ensures { result ≡ last_of self.now.state.venue.kept partition }
    {
        match partition {
            Some(partition) => self.venue.last(partition),
            None => 0,
        }
    }

    // A Missed Message Request, on the channel that has them.
    fn miss(&mut self, channel: Channel, line: usize, m: &MissedMessageRequest) -> Answer
        requires there { line < length self.old.state.lines }
        requires logged_on { on channel (session self.old.state line) ≡ true }
        ensures answer { result ≡ (missed_on channel line m.now self.old.state).answer }
        ensures after { Stays self.old self.new (missed_on channel line m.now self.old.state).changed [] }
    {
        match channel {
            Channel::RealTime => Answer::Silent,
            Channel::Recovery => {
                let partition = partition_of(m.partition);
                let last = self.last_of(partition);
                match self.session(line).request(partition, m.last.number(), last) {
                    Err(refusal) => {
                        rejection(Reason::Request(refusal), &Message::MissedMessageRequest(*m))
                    }
                    Ok((session, response)) => {
                        self.set_session(line, session);
                        Answer::Ack(response)
                    }
                }
            }
        }
    }

    // A Logout.
    fn logout(&mut self, channel: Channel, line: usize, time: Time) -> Answer
        requires { line < length self.old.state.lines }
        ensures { Took M.Did time (logout channel line self.old.state) self.old result self.new }
    {
        match channel {
            Channel::RealTime => self.close_line(line, time),
            Channel::Recovery => {
                let session = self.session(line).close_recovery();
                self.set_session(line, session);
            }
        }
        Answer::Silent
    }

    // A message of a line that is logged on.
    fn obey(&mut self, channel: Channel, line: usize, m: &Message<'_>, time: Time) -> Answer
        requires there { line < length self.old.state.lines }
        requires logged_on { on channel (session self.old.state line) ≡ true }
        ensures { Took M.Did time (taken channel line m.now time (spare (venue_of self.old)) self.old.state) self.old
            result self.new }
    {
        match m {
            Message::NewOrder(r) => answer_for(m, new_order(&mut self.venue, line, r, time)),
            Message::OrderCancelRequest(r) => answer_for(m, cancel(&mut self.venue, line, r, time)),
            Message::OrderCancelReplaceRequest(r) => {
                answer_for(m, replace(&mut self.venue, line, r, time))
            }
            Message::OrderMassCancelRequest(r) => {
                let firm = self.firm(line);
                let done = mass_cancel(&mut self.venue, &self.participants, firm, line, r, time);
                answer_for(m, done)
            }
            Message::MissedMessageRequest(r) => self.miss(channel, line, r),
            Message::Logout(_) => self.logout(channel, line, time),
            _ => Answer::Silent,
        }
    }

    // Any message of a line.
    fn take(&mut self, channel: Channel, line: usize, m: &Message<'_>, time: Time) -> Answer
        requires { line < length self.old.state.lines }
        ensures { Took M.Did time (outcome_of channel line m.now time (spare (venue_of self.old)) self.old.state) self.old
            result self.new }
    {
        if let Message::Logon(logon) = m {
            return self.logon(channel, line, logon);
        }
        if !self.session(line).is_on(channel) {
            return rejection(Reason::NotLoggedOn, m);
        }
        self.obey(channel, line, m, time)
    }

    // A message given on a channel of a line.
    pub(crate) fn hear(
        &mut self,
        channel: Channel,
        line: usize,
        message: &[u8],
        time: Time,
        reply: &mut [u8],
    ) -> Result<usize, GatewayFault>
        ensures { Hears (Comes M.Did time self.old self.new) (record {
          channel = channel;
          line = line;
          bytes = message.now;
          time = time;
          buffer = reply.old;
          spare = spare (venue_of self.old);
        }) self.old.state result reply.new }
    {
        self.check_call(reply.len(), line)?;
        let m = understand(channel, message, reply)?;
        let answer = self.take(channel, line, &m, time);
        Ok(answer.write(reply))
    }
}
