// Reads captured messages, a line each, or a captured stream of them, and prints what each says or why it is refused.
#![tactic(auto)]

use console::{About, Choice, Session};
use inspector::account::Account;
use inspector::answer::{Answer, answer_to};
use inspector::capture::Capture;
use inspector::line::channel;
use std::io;
use std::process::ExitCode;

const ABOUT: About = About {
    name: "inspect",
    summary: "Reads captured messages of Turquoise's native protocol, a line each, and prints what each says, or which check refuses it and at which offset; then an account.",
    words: "A line is READER HEX: who reads the message, and its bytes in hex digits (- for none).

  real-time HEX   as a gateway reads it on a real-time channel
  recovery HEX    as a gateway reads it on a recovery channel
  follower HEX    as a client reads it
  # ...           a comment; blank lines are passed over too

Example: real-time 02010030

With --stream READER the input is no lines but the bytes of a stream as they were sent, one message behind the other. Offsets then count from its first byte. Behind a message that is refused for a field (5) the reading goes on; behind a wrong start byte, type or length (2, 3, 4) it ends; a message that the end of the stream cuts short gets 1.",
};

const STREAM: Choice = Choice {
    name: "stream",
    words: &["real-time", "recovery", "follower"],
    help: "read the bytes of a captured stream, as this reader takes it",
};

/// What was read so far.
#[derive(Drop)]
struct Inspection {
    account: Account,
    /// The stream, where one is read and no lines.
    capture: Option<Capture>,
}

impl Inspection {
    fn tell<R: Print + AllocGlobal>(&mut self, rt: &R, answer: Answer) -> io::Result<()> {
        rt.println(answer.text.as_str())?;
        self.account = self.account.with(answer.outcome);
        Ok(())
    }
}

impl Session for Inspection {
    fn line<R: Print + AllocGlobal>(&mut self, rt: &R, line: &[u8]) -> io::Result<()> {
        if let Some(answer) = answer_to(rt.alloc(), line)? {
            self.tell(rt, answer)?;
        }
        Ok(())
    }

    fn choose(&mut self, word: &str) {
        self.capture = channel(word.as_bytes()).map(Capture::new);
    }

    fn chunk<R: Print + AllocGlobal>(&mut self, rt: &R, bytes: &[u8]) -> io::Result<()> {
        let mut rest = bytes;
        for _ in 0..=bytes.len() {
            let Some(capture) = &mut self.capture else {
                break;
            };
            let Some(told) = capture.next(rt.alloc(), rest)? else {
                break;
            };
            rest = &rest[told.used..];
            self.tell(rt, told.answer)?;
        }
        Ok(())
    }

    fn close<R: Print + AllocGlobal>(&mut self, rt: &R) -> io::Result<()> {
        if let Some(capture) = &self.capture {
            if let Some(answer) = capture.end(rt.alloc())? {
                self.tell(rt, answer)?;
            }
        }
        rt.println(self.account)
    }
}

fn main(rt: HostRuntime) -> ExitCode {
    let mut inspection = Inspection {
        account: Account::new(),
        capture: None,
    };
    console::run_with(&rt, ABOUT, STREAM, &mut inspection)
}
