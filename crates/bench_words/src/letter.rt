// The message that a request asks for, with texts of its own that the message lends.
ghost use Rattle.std.specs.Prelude.{◌≡◌, IfOk};
ghost use Rattle.std.specs.Result.{result_err};
ghost use Rattle.texts.specs.Bytes.{said};
ghost use Rattle.session_messages.specs.Session.{missed_message_request_contents};
ghost use Rattle.bench_words.specs.Missed.{missed_asked, missed_wrong};

use crate::command::Request;
use crate::mass::MassCancel;
use crate::misread::Misread;
use crate::session::{Logon, Logout, Sender};
use crate::trading::{Cancel, Order, Replace};
use layout::sequence::LastSequence;
use session_messages::missed_message_request::MissedMessageRequest;
use wire::message::Message;

/// A message that a request asks for.
#[derive(Clone, Copy)]
pub enum Letter {
    Logon(Logon),
    Logout(Logout),
    Order(Order),
    Cancel(Cancel),
    Replace(Replace),
    MassCancel(MassCancel),
    Missed(MissedMessageRequest),
}

fn missed(partition: i8, last: u32) -> Result<MissedMessageRequest, Misread>
    ensures wrong { result_err result ≡ missed_wrong last }
    ensures asked { IfOk result (λ m. missed_message_request_contents m ≡ missed_asked partition last) }
{
    match LastSequence::new(last) {
        Some(last) => Ok(MissedMessageRequest { partition, last }),
        None => Err(Misread::Number),
    }
}

impl Letter {
    ghost use Rattle.wire.specs.Messages.{contents_of, kind_of};
    ghost use Rattle.bench_words.specs.Asked.{asked, kind_asked, letter_contents, letter_kind, wrong_of};

    /// The message that a sender's request asks for, or the first of its words that does not fit.
    pub fn of(request: &Request<'_>, sender: &Sender) -> Result<Letter, Misread>
        ensures wrong { result_err result ≡ wrong_of request.now }
        ensures kind { IfOk result (λ l. letter_kind l ≡ kind_asked request.now) }
        ensures asked { IfOk result (λ l. letter_contents l
            ≡ asked (said sender.now.name.bytes) (said sender.now.password.bytes) request.now) }
    {
        match *request {
            Request::Logon | Request::Recover => Ok(Letter::Logon(Logon::new(sender))),
            Request::Logout => Ok(Letter::Logout(Logout::new())),
            Request::Order {
                side,
                symbol,
                shares,
                pricing,
                client,
                lifetime,
                marked,
                book,
            } => Ok(Letter::Order(Order::new(
                side, symbol, shares, pricing, client, lifetime, marked, book,
            )?)),
            Request::Cancel {
                symbol,
                side,
                client,
                original,
                book,
            } => Ok(Letter::Cancel(Cancel::new(symbol, side, client, original, book)?)),
            Request::Replace {
                symbol,
                side,
                shares,
                price,
                client,
                original,
                lifetime,
                book,
            } => Ok(Letter::Replace(Replace::new(
                symbol, side, shares, price, client, original, lifetime, book,
            )?)),
            Request::MassCancel {
                client,
                firm,
                scope,
            } => Ok(Letter::MassCancel(MassCancel::new(client, firm, scope)?)),
            Request::Missed { partition, last } => Ok(Letter::Missed(missed(partition, last)?)),
        }
    }

    /// The message, which lends the texts.
    pub fn message(&self) -> Message<'_>
        ensures kind { kind_of result ≡ letter_kind self.now }
        ensures contents { contents_of result ≡ letter_contents self.now }
    {
        match self {
            Letter::Logon(logon) => Message::Logon(logon.message()),
            Letter::Logout(logout) => Message::Logout(logout.message()),
            Letter::Order(order) => Message::NewOrder(order.message()),
            Letter::Cancel(cancel) => Message::OrderCancelRequest(cancel.message()),
            Letter::Replace(replace) => Message::OrderCancelReplaceRequest(replace.message()),
            Letter::MassCancel(cancel) => Message::OrderMassCancelRequest(cancel.message()),
            Letter::Missed(missed) => Message::MissedMessageRequest(*missed),
        }
    }
}
