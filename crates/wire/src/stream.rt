// A stream of bytes, cut into messages however its bytes come in chunks.
ghost use Rattle.std.specs.Prelude.{◌≡◌, ◌+◌, ◌-◌, ◌≤◌, ◌++◌, [], length, take, drop, IfOk, true};
ghost use Rattle.wire.specs.Streams.{answer, begun, end, end_fault, fault_in, fresh, front, given, passed, reached, standing, Within};

use crate::kinds::Channel;
use layout::fault::Fault;
use layout::put::START;
use layout::reader::Reader;
use limits::MESSAGE_BYTES;
use std::marker::Model;

/// What is wrong with a stream of bytes, and at which offset from its first byte.
#[derive(Clone, Copy, Debug, PartialEq)]
pub struct StreamFault {
    pub fault: Fault,
    /// An offset of 2^64 - 1 stands for all that are not below it.
    pub offset: u64,
}

/// What comes of a chunk.
#[derive(Clone, Copy, Debug, PartialEq)]
pub enum Next {
    /// It is taken whole, and what is held is no whole message yet.
    Unfinished,
    /// A message is held, with so many bytes of the chunk. Those behind them are to be given next.
    Message(usize),
    /// What is held can be no message, whatever comes; it stays so.
    Fault(StreamFault),
}

// As many bytes as the longest message has, or fewer: in a contract, the list of them.
#[derive(Drop)]
struct Front {
    bytes: [u8; MESSAGE_BYTES],
    len: usize,
}

impl Model for Front {
    ghost use Rattle.std.specs.Prelude.{ℕ, ◌≤◌, List, take};

    ghost Value = { List ℕ };

    ghost view = { λ h. take h.len h.bytes };

    ghost invariant = { λ h. h.len ≤ 145 };
}

// How long the message is that begins with these bytes, or which check they fail.
#[tactic(auto, unfolding(crate::specs::Streams::begun))]
fn begun(channel: Channel, head: &[u8]) -> Result<usize, Fault>
    requires { 4 ≤ length head.now }
    ensures value { result ≡ begun channel head.now }
    ensures bound { IfOk result (λ n. n ≤ 145) }
{
    let r = Reader { src: head };
    if r.u8(0) != START {
        return Err(Fault::Start);
    }
    let Some(kind) = channel.kind(r.u8(3)) else {
        return Err(Fault::Unknown);
    };
    if usize::from(r.u16(1)) + 3 != kind.total() {
        return Err(Fault::Length);
    }
    Ok(kind.total())
}

impl Front {
    fn new() -> Front
        ensures { result ≡ [] }
    {
        Front {
            bytes: [0; MESSAGE_BYTES],
            len: 0,
        }
    }

    fn len(&self) -> usize
        ensures { result ≡ length self.now }
    {
        self.len
    }

    fn as_slice(&self) -> &[u8]
        ensures value { result.now ≡ self.now }
        ensures longest { length result.now ≤ 145 }
    {
        &self.bytes[..self.len]
    }

    // Keeps so many, or all where they are fewer.
    fn truncate(&mut self, len: usize)
        ensures { self.new ≡ take len self.old }
    {
        self.len = self.len.min(len);
    }

    // Takes bytes from the front of a chunk until it holds so many, and says what is left of the chunk.
    fn fill<'c>(&mut self, chunk: &'c [u8], upto: usize) -> &'c [u8]
        requires { upto ≤ 145 }
        ensures held { self.new ≡ self.old ++ take (upto - length self.old) chunk.now }
        ensures left { result.now ≡ drop (upto - length self.old) chunk.now }
    {
        let lacking = upto.saturating_sub(self.len).min(chunk.len());
        let (front, rest) = chunk.split_at(lacking);
        let end = self.len + lacking;
        self.bytes[self.len..end].copy_from_slice(front);
        self.len = end;
        rest
    }

    // How long the message is whose header it holds, or which check the header fails.
    fn total(&self, channel: Channel) -> Result<usize, Fault>
        requires { 4 ≤ length self.now }
        ensures value { result ≡ begun channel (take 4 self.now) }
        ensures bound { IfOk result (λ n. n ≤ 145) }
    {
        begun(channel, &self.as_slice()[..4])
    }

    // Takes of a chunk what the message at the front lacks, and says how much that is once it is whole.
    fn advance(&mut self, channel: Channel, chunk: &[u8]) -> Result<Option<usize>, Fault>
        ensures held { self.new ≡ reached channel (self.old ++ chunk.now) }
        ensures stands { result ≡ standing (length self.old) (front channel (self.old ++ chunk.now)) }
    {
        let before = self.len();
        let rest = self.fill(chunk, 4);
        if self.len() < 4 {
            return Ok(None);
        }
        match self.total(channel) {
            Err(fault) => {
                self.truncate(4);
                Err(fault)
            }
            Ok(total) => {
                self.fill(rest, total);
                self.truncate(total);
                if self.len() < total {
                    return Ok(None);
                }
                Ok(Some(total.saturating_sub(before)))
            }
        }
    }

    // What is wrong with it if nothing comes any more.
    fn end_fault(&self, channel: Channel) -> Fault
        ensures { result ≡ end_fault (front channel self.now) }
    {
        if self.len() < 4 {
            return Fault::Short;
        }
        match self.total(channel) {
            Err(fault) => fault,
            Ok(_) => Fault::Short,
        }
    }
}

/// Cuts a stream into messages as one reader takes them: it holds what has come of the next one, and never more than
/// the longest message has.
#[derive(Drop)]
pub struct Splitter {
    channel: Channel,
    // where in the stream what is held begins
    at: u64,
    held: Front,
    // it is a message that was handed out
    handed: bool,
}

impl Model for Splitter {
    ghost use Rattle.wire.specs.Streams.{IsOpen, Splitting};

    ghost Value = { Splitting };

    ghost view = { λ s. record { channel = s.channel; at = s.at; held = s.held; handed = s.handed } };

    ghost invariant = { λ s. IsOpen s.channel s.held s.handed };
}

impl Splitter {
    /// At the beginning of a stream.
    pub fn new(channel: Channel) -> Splitter
        ensures { result ≡ fresh channel }
    {
        Splitter {
            channel,
            at: 0,
            held: Front::new(),
            handed: false,
        }
    }

    // Lets go of a message that was handed out.
    fn pass(&mut self)
        ensures { self.new ≡ passed self.old }
    {
        if self.handed {
            self.at = self.at.saturating_add(self.held.len() as u64);
            self.held.truncate(0);
            self.handed = false;
        }
    }

    // A fault of the message whose first byte is held first.
    fn fault(&self, fault: Fault) -> StreamFault
        ensures { result ≡ fault_in self.now.at fault }
    {
        StreamFault {
            fault,
            offset: self.at.saturating_add(fault.offset() as u64),
        }
    }

    /// Who reads the stream.
    pub fn channel(&self) -> Channel
        ensures { result ≡ self.now.channel }
    {
        self.channel
    }

    /// Takes from the front of a chunk what the next message lacks. A message that was handed out is gone then.
    pub fn next(&mut self, chunk: &[u8]) -> Next
        ensures after { self.new ≡ given self.old chunk.now }
        ensures answer { result ≡ answer self.old chunk.now }
        ensures within { Within (length chunk.now) result }
    {
        self.pass();
        match self.held.advance(self.channel, chunk) {
            Ok(None) => Next::Unfinished,
            Ok(Some(used)) => {
                self.handed = true;
                Next::Message(used)
            }
            Err(fault) => Next::Fault(self.fault(fault)),
        }
    }

    /// The message that was handed out last; before the first one, and behind a chunk that made none whole, what has
    /// come of the next one.
    pub fn message(&self) -> &[u8]
        ensures value { result.now ≡ self.now.held }
        ensures longest { length result.now ≤ 145 }
    {
        self.held.as_slice()
    }

    /// Where in the stream that begins.
    pub fn offset(&self) -> u64
        ensures { result ≡ self.now.at }
    {
        self.at
    }

    /// What is wrong if the stream ends here: nothing behind a whole message.
    pub fn end(&self) -> Option<StreamFault>
        ensures { result ≡ end self.now }
    {
        if self.handed || self.held.len() == 0 {
            return None;
        }
        Some(self.fault(self.held.end_fault(self.channel)))
    }
}
