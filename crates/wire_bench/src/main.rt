// Writes and reads a message as often as each line of its input says, for a measure of what a message costs.
#![tactic(auto)]

mod sample;

use crate::sample::Texts;
use console::{About, Session};
use std::io;
use std::process::ExitCode;
use wire::kinds::Channel;
use wire::message::{Message, TooShort, read, write};

const ABOUT: About = About {
    name: "wire_bench",
    summary: "Writes or reads a message as often as a line says, and prints a checksum of what came of it.",
    words: "  write KIND TEXTS TIMES   writes the message TIMES times, with another quantity each time
  read KIND TEXTS TIMES    reads its bytes TIMES times, with another quantity each time

KIND is order, a New Order of 97 bytes, or report, an Execution Report of 145; TEXTS is short or full.
Under valgrind --tool=callgrind two runs with different numbers give the instructions of one message.",
};

/// How many bytes the longer of the two messages has.
const LONGEST: usize = 145;

/// Which message.
#[derive(Clone, Copy)]
enum Subject {
    Order,
    Report,
}

impl Subject {
    fn of(word: &str) -> Option<Subject> {
        match word {
            "order" => Some(Subject::Order),
            "report" => Some(Subject::Report),
            _ => None,
        }
    }

    /// Where its quantity stands: an order's own, and what a report leaves open.
    fn place(self) -> usize {
        match self {
            Subject::Order => 59,
            Subject::Report => 83,
        }
    }

    fn reader(self) -> Channel {
        match self {
            Subject::Order => Channel::RealTime,
            Subject::Report => Channel::Follower,
        }
    }

    /// The message with a quantity.
    fn message<'a>(self, texts: &'a Texts, quantity: i32) -> Message<'a> {
        match self {
            Subject::Order => Message::NewOrder(texts.order(quantity)),
            Subject::Report => Message::ExecutionReport(texts.report(quantity)),
        }
    }
}

// Out of line, so that the loop around a call shares none of its work.
#[inline(never)]
fn written_once(message: &Message<'_>, out: &mut [u8]) -> Result<usize, TooShort> {
    write(message, out)
}

// The quantity that is read, 0 where nothing is.
#[inline(never)]
fn read_once(reader: Channel, bytes: &[u8]) -> u64 {
    match read(reader, bytes) {
        Ok(Message::NewOrder(order)) => u64::from(order.quantity.cast_unsigned()),
        Ok(Message::ExecutionReport(report)) => u64::from(report.leaves_quantity.cast_unsigned()),
        _ => 0,
    }
}

// The next message is the same with another quantity.
fn set_quantity(message: &mut Message<'_>, quantity: i32) {
    match message {
        Message::NewOrder(order) => order.quantity = quantity,
        Message::ExecutionReport(report) => report.leaves_quantity = quantity,
        _ => {}
    }
}

// The checksum of so many messages written: the low byte of each quantity and what each call answers.
fn written(subject: Subject, texts: &Texts, times: u32) -> u64 {
    let mut message = subject.message(texts, 0);
    let mut out = [0; LONGEST];
    let place = subject.place();
    let mut sum: u64 = 0;
    for i in 0..times {
        set_quantity(&mut message, (i & 0xffff) as i32);
        let length = written_once(&message, &mut out).unwrap_or(0);
        sum = sum
            .wrapping_add(length as u64)
            .wrapping_add(u64::from(out.get(place).copied().unwrap_or(0)));
    }
    sum
}

// The checksum of so many messages read: each quantity.
fn read_again(subject: Subject, texts: &Texts, times: u32) -> u64 {
    let mut bytes = [0; LONGEST];
    let place = subject.place();
    let length = write(&subject.message(texts, 0), &mut bytes).unwrap_or(0);
    let mut sum: u64 = 0;
    for i in 0..times {
        if let Some(byte) = bytes.get_mut(place) {
            *byte = (i & 0xff) as u8;
        }
        if let Some(message) = bytes.get(..length) {
            sum = sum.wrapping_add(read_once(subject.reader(), message));
        }
    }
    sum
}

/// The texts of the messages.
#[derive(Drop)]
struct Measure {
    short: Texts,
    full: Texts,
}

impl Measure {
    fn texts(&self, word: &str) -> Option<&Texts> {
        match word {
            "short" => Some(&self.short),
            "full" => Some(&self.full),
            _ => None,
        }
    }

    // The checksum that a line asks for; none where it is not understood.
    fn sum(&self, verb: &str, kind: &str, texts: &str, times: u32) -> Option<u64> {
        let subject = Subject::of(kind)?;
        let texts = self.texts(texts)?;
        match verb {
            "write" => Some(written(subject, texts, times)),
            "read" => Some(read_again(subject, texts, times)),
            _ => None,
        }
    }
}

impl Session for Measure {
    fn line<R: Print + AllocGlobal>(&mut self, rt: &R, line: &[u8]) -> io::Result<()> {
        let text = str::from_utf8(line).unwrap_or("");
        let mut words = text.split(' ');
        let verb = words.next().unwrap_or("");
        let kind = words.next().unwrap_or("");
        let texts = words.next().unwrap_or("");
        let sum = match words.next().unwrap_or("").parse() {
            Ok(times) => self.sum(verb, kind, texts, times),
            Err(_) => None,
        };
        match sum {
            Some(sum) => println!(rt; "{text}: {sum}"),
            None => println!(rt;
                "not understood: a line is write|read order|report short|full TIMES"
            ),
        }
    }

    fn close<R: Print + AllocGlobal>(&mut self, _rt: &R) -> io::Result<()> {
        Ok(())
    }
}

fn main(rt: HostRuntime) -> ExitCode {
    let mut measure = Measure {
        short: Texts::short(),
        full: Texts::full(),
    };
    console::run(&rt, ABOUT, &mut measure)
}
