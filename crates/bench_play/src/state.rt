// What a run keeps beside both ends: the account, the clock, and how messages are shown.
use crate::came::Came;
use crate::under_way::UnderWay;
use bench_account::account::Account;
use bench_account::answer::{Answer, Payload};
use bench_words::command::Style;
use inspector::answer::answer_message;
use std::alloc::Global;
use std::io;
use texts::values::Time;
use wire::kinds::Channel;

/// What a call left of a message in a buffer.
pub fn front(buffer: &[u8], length: usize) -> &[u8] {
    &buffer[..length.min(buffer.len())]
}

/// What is kept while a script is played: its account, the clock, how messages are printed, what is under way on the
/// line, and what came of it.
#[derive(Drop)]
pub struct State {
    pub account: Account,
    pub clock: Time,
    pub style: Style,
    pub under_way: UnderWay,
    pub came: Came,
}

/// How a message comes: as an answer, as one that is sent, as a request that a follower writes, or as the Reject of a
/// check with its number and offset.
#[derive(Clone, Copy)]
pub enum Carried {
    Answer,
    Sent,
    Request,
    Reject(u8, usize),
}

/// Who reads a message, by its type.
pub fn reader(bytes: &[u8]) -> Channel {
    match bytes.get(3) {
        Some(b'A' | b'D' | b'F' | b'G' | b'q') => Channel::RealTime,
        Some(b'M') => Channel::Recovery,
        _ => Channel::Follower,
    }
}

impl Carried {
    fn with(self, payload: Payload<'_>) -> Answer<'_> {
        match self {
            Carried::Answer => Answer::Message(payload),
            Carried::Sent => Answer::Sent(payload),
            Carried::Request => Answer::Request(payload),
            Carried::Reject(number, offset) => Answer::Rejected(number, offset, payload),
        }
    }
}

impl State {
    /// Nothing has happened yet, and the clock stands at 0.
    pub fn new(heap: Global) -> State {
        State {
            account: Account::new(),
            clock: Time {
                seconds: 0,
                microseconds: 0,
            },
            style: Style::Hex,
            under_way: UnderWay::new(heap),
            came: Came::new(),
        }
    }

    /// Counts an answer and prints it.
    pub fn tell<R: Print>(&mut self, rt: &R, answer: Answer<'_>) -> io::Result<()> {
        self.account.count(&answer);
        rt.println(answer)
    }

    /// The same of an answer that carries a message.
    pub fn tell_message<R: Print + AllocGlobal>(
        &mut self,
        rt: &R,
        carried: Carried,
        bytes: &[u8],
    ) -> io::Result<()> {
        match self.style {
            Style::Hex => self.tell(rt, carried.with(Payload::Bytes(bytes))),
            Style::Text => {
                let shown = answer_message(rt.alloc(), reader(bytes), bytes)?;
                self.tell(rt, carried.with(Payload::Text(shown.text.as_str())))
            }
        }
    }
}
