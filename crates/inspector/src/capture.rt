// What a captured stream is answered, message by message, however its bytes come in chunks.
ghost use Rattle.std.specs.Prelude.{◌≡◌, ◌≤◌, length, IfOk, IfSome};
ghost use Rattle.inspector.specs.Captures.{Answers, Ends, begun, captured};

use crate::answer::{Answer, answer_from, refusal};
use std::alloc::{AllocError, Global};
use std::marker::Model;
use wire::kinds::Channel;
use wire::stream::{Next, Splitter};

/// The answer to the next message of a stream, or to bytes that can be none, and how many bytes of the chunk are done
/// with.
#[derive(Drop)]
pub struct Judged {
    pub answer: Answer,
    pub used: usize,
}

/// A captured stream, as far as it was read.
#[derive(Drop)]
pub struct Capture {
    splitter: Splitter,
    // bytes that can be no message have ended it
    stopped: bool,
}

impl Model for Capture {
    ghost use Rattle.inspector.specs.Captures.{Captured};

    ghost Value = { Captured };

    ghost view = { λ c. record { splitter = c.splitter; stopped = c.stopped } };
}

impl Capture {
    /// At the beginning of a stream, as one reader takes it.
    pub fn new(channel: Channel) -> Capture
        ensures { result ≡ begun channel }
    {
        Capture {
            splitter: Splitter::new(channel),
            stopped: false,
        }
    }

    /// Reads from the front of a chunk to the end of the next message, and answers it; none where the chunk ends
    /// before that. Bytes that can be no message are answered once, and nothing is read behind them.
    pub fn next(&mut self, heap: Global, chunk: &[u8]) -> Result<Option<Judged>, AllocError>
        ensures after { self.new ≡ captured self.old chunk.now }
        ensures answers { IfOk result (λ told. Answers self.old chunk.now told) }
        ensures within { IfOk result (λ told. IfSome told (λ t. t.used ≤ length chunk.now)) }
    {
        if self.stopped {
            return Ok(None);
        }
        match self.splitter.next(chunk) {
            Next::Unfinished => Ok(None),
            Next::Message(used) => {
                let s = &self.splitter;
                let answer = answer_from(heap, s.channel(), s.message(), s.offset())?;
                Ok(Some(Judged { answer, used }))
            }
            Next::Fault(fault) => {
                self.stopped = true;
                let answer = refusal(heap, fault.fault, fault.offset)?;
                Ok(Some(Judged {
                    answer,
                    used: chunk.len(),
                }))
            }
        }
    }

    /// The answer to what is left where the stream ends: a message that is cut short; none where nothing is.
    pub fn end(&self, heap: Global) -> Result<Option<Answer>, AllocError>
        ensures { IfOk result (λ answer. Ends self.now answer) }
    {
        if self.stopped {
            return Ok(None);
        }
        match self.splitter.end() {
            None => Ok(None),
            Some(fault) => Ok(Some(refusal(heap, fault.fault, fault.offset)?)),
        }
    }
}
