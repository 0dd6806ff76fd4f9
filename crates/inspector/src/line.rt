// One line of input: who reads, and the bytes of one message.
ghost use Rattle.std.specs.Prelude.{◌≡◌, Some, IfOk};
ghost use Rattle.std.specs.List.{list_all};
ghost use Rattle.std.specs.Str.{bytes_eq};
ghost use Rattle.hex.specs.Hex.{is_hex_digit, decode_of};
ghost use Rattle.inspector.specs.Lines.{is_skipped, channel_of, decoded, bytes_given, given, given_by};
ghost use Rattle.inspector.specs.Sentences.{sentence_of};

use crate::words::{blanks, word};
use hex::FromHexError;
use std::alloc::{AllocError, Global};
use std::fmt;
use thiserror::Error;
use wire::kinds::Channel;

/// Why a line is not understood.
#[derive(Clone, Copy, Debug, PartialEq, Error)]
pub enum Unclear {
    UnknownReader,
    NoBytes,
    MoreWords,
    NotHex,
    OddDigits,
}

impl Unclear {
    /// The sentence that a person reads.
    pub fn text(self) -> &'static str
        ensures { result.now ≡ sentence_of self }
    {
        match self {
            Unclear::UnknownReader => {
                "not understood: the reader is none of real-time, recovery and follower"
            }
            Unclear::NoBytes =>
                "not understood: no bytes are given; a message of none is written -",
            Unclear::MoreWords =>
                "not understood: there are more words than a reader and its bytes",
            Unclear::NotHex => "not understood: one of the characters is no hex digit",
            Unclear::OddDigits => "not understood: the number of hex digits is odd",
        }
    }
}

impl fmt::Display for Unclear {
    ghost output = { λ why. Some (sentence_of why) };

    fn fmt<W: fmt::Write>(&self, f: &mut fmt::Formatter<W>) -> fmt::Result {
        f.write_str(self.text())
    }
}

/// What a line says.
#[derive(Drop)]
pub enum Line {
    /// Blank, or a comment.
    Skipped,
    Message(Channel, Vec<u8>),
    Unclear(Unclear),
}

fn is_skipped(line: &[u8]) -> bool
    ensures { result ≡ is_skipped line.now }
{
    blanks(line) == line.len() || line[0] == b'#'
}

pub(crate) fn is_text(word: &[u8], text: &[u8]) -> bool
    ensures { result ≡ bytes_eq word.now text.now }
{
    word == text
}

/// The reader of a name: `real-time`, `recovery` or `follower`.
pub fn channel(name: &[u8]) -> Option<Channel>
    ensures { result ≡ channel_of name.now }
{
    if is_text(name, b"real-time") {
        Some(Channel::RealTime)
    } else if is_text(name, b"recovery") {
        Some(Channel::Recovery)
    } else if is_text(name, b"follower") {
        Some(Channel::Follower)
    } else {
        None
    }
}

fn is_hex(digits: &[u8]) -> bool
    ensures { result ≡ list_all is_hex_digit digits.now }
{
    digits.iter().all(|b| { matches!(*b, b'0'..=b'9' | b'A'..=b'F' | b'a'..=b'f') })
}

fn decode(heap: Global, channel: Channel, digits: &[u8]) -> Result<Line, AllocError>
    ensures { IfOk result (λ l. given_by l ≡ decoded channel (decode_of digits.now)) }
{
    match hex::decode(heap, digits) {
        Ok(bytes) => Ok(Line::Message(channel, bytes)),
        Err(FromHexError::OddLength) => Ok(Line::Unclear(Unclear::OddDigits)),
        Err(FromHexError::OutOfMemory) => Err(AllocError),
        Err(_) => Ok(Line::Unclear(Unclear::NotHex)),
    }
}

fn bytes_of(heap: Global, channel: Channel, digits: &[u8]) -> Result<Line, AllocError>
    ensures { IfOk result (λ l. given_by l ≡ bytes_given channel digits.now) }
{
    if is_text(digits, b"-") {
        return Ok(Line::Message(channel, Vec::new(heap)));
    }
    if !is_hex(digits) {
        return Ok(Line::Unclear(Unclear::NotHex));
    }
    decode(heap, channel, digits)
}

/// What a line says: `READER HEX`, the bytes in hex digits or `-` for none.
pub fn parse(heap: Global, line: &[u8]) -> Result<Line, AllocError>
    ensures { IfOk result (λ l. given_by l ≡ given line.now) }
{
    if is_skipped(line) {
        return Ok(Line::Skipped);
    }
    let (name, rest) = word(line);
    let Some(channel) = channel(name) else {
        return Ok(Line::Unclear(Unclear::UnknownReader));
    };
    let (digits, rest) = word(rest);
    if digits.is_empty() {
        return Ok(Line::Unclear(Unclear::NoBytes));
    }
    let (more, _) = word(rest);
    if !more.is_empty() {
        return Ok(Line::Unclear(Unclear::MoreWords));
    }
    bytes_of(heap, channel, digits)
}
