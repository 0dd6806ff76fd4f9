// What a call is answered, as a line of text.
ghost use Rattle.std.specs.Prelude.{Some};
ghost use Rattle.bench_account.specs.Answers.{answer_text, hex_text, payload_text, trade_text};

use std::fmt;
use texts::party::Party;
use texts::values::Price;

// Bytes as pairs of hex digits.
#[derive(Clone, Copy)]
struct Pairs<'a> {
    bytes: &'a [u8],
}

impl fmt::Display for Pairs<'_> {
    ghost output = { λ pairs. Some (hex_text pairs.bytes.now) };

    fn fmt<W: fmt::Write>(&self, f: &mut fmt::Formatter<W>) -> fmt::Result {
        for byte in self.bytes {
            let high = *byte / 16;
            let low = *byte % 16;
            write!(f, "{high:x}{low:x}")?;
        }
        Ok(())
    }
}

/// A message, as its bytes or as text.
#[derive(Clone, Copy)]
pub enum Payload<'a> {
    Bytes(&'a [u8]),
    Text(&'a str),
}

impl fmt::Display for Payload<'_> {
    ghost output = { λ payload. Some (payload_text payload) };

    fn fmt<W: fmt::Write>(&self, f: &mut fmt::Formatter<W>) -> fmt::Result {
        match *self {
            Payload::Bytes(bytes) => write!(f, "{}", Pairs { bytes }),
            Payload::Text(text) => f.write_str(text),
        }
    }
}

/// A trade that a step brought.
#[derive(Clone, Copy, Debug, PartialEq)]
pub struct Trade {
    pub number: u64,
    pub passive: Option<u64>,
    pub aggressive: Option<u64>,
    /// In shares.
    pub quantity: u32,
    pub price: Price,
}

impl fmt::Display for Trade {
    ghost output = { λ trade. Some (trade_text trade) };

    fn fmt<W: fmt::Write>(&self, f: &mut fmt::Formatter<W>) -> fmt::Result {
        let passive = Party(self.passive);
        let aggressive = Party(self.aggressive);
        let price = self.price;
        write!(f, "trade {} passive {passive} ", self.number)?;
        write!(f, "aggressive {aggressive} {} at {price}", self.quantity)
    }
}

/// What a call is answered.
#[derive(Clone, Copy)]
pub enum Answer<'a> {
    /// The gateway is started.
    Started,
    Nothing,
    /// The message that answers one that came in.
    Message(Payload<'a>),
    /// A message that is sent.
    Sent(Payload<'a>),
    Expired(u64),
    Traded(Trade),
    /// A trade is cancelled.
    Cancelled,
    /// A line is closed.
    Closed,
    /// A midpoint is set, or gone.
    Set,
    /// The follower is up.
    Up,
    /// Its line is lost.
    Lost,
    /// The request that it writes.
    Request(Payload<'a>),
    /// What became of a message that it took, in a word.
    Became(&'a str),
    /// The number of the check that failed.
    Refused(u8),
    /// The same of a check of a message, with the offset of what failed it.
    RefusedAt(u8, usize),
    /// The same of a check of a message, with the offset of what failed it and the Reject that answers it.
    Rejected(u8, usize, Payload<'a>),
}

impl fmt::Display for Answer<'_> {
    ghost output = { λ answer. Some (answer_text answer) };

    fn fmt<W: fmt::Write>(&self, f: &mut fmt::Formatter<W>) -> fmt::Result {
        match *self {
            Answer::Started => f.write_str("started"),
            Answer::Nothing => f.write_str("nothing"),
            Answer::Message(message) => write!(f, "answer {message}"),
            Answer::Sent(message) => write!(f, "message {message}"),
            Answer::Expired(number) => write!(f, "expired {number}"),
            Answer::Traded(trade) => write!(f, "{trade}"),
            Answer::Cancelled => f.write_str("cancelled"),
            Answer::Closed => f.write_str("closed"),
            Answer::Set => f.write_str("midpoint set"),
            Answer::Up => f.write_str("up"),
            Answer::Lost => f.write_str("lost"),
            Answer::Request(message) => write!(f, "request {message}"),
            Answer::Became(word) => f.write_str(word),
            Answer::Refused(number) => write!(f, "refused {number}"),
            Answer::RefusedAt(number, offset) => write!(f, "refused {number} at {offset}"),
            Answer::Rejected(number, offset, reject) => {
                write!(f, "refused {number} at {offset} answer {reject}")
            }
        }
    }
}
