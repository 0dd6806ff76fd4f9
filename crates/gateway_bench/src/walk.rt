// The calls of a day, in rows of one kind. Each says how many calls it made.
use bench_words::plan::{Asked, LINES, missed};
use gateway::gateway::Gateway;
use matching::matcher::Matcher;
use std::alloc::{AllocError, Global};
use store::Store;
use texts::values::Time;
use venue::step::Step;
use wire::message::BUFFER;

const NOON: Time = Time {
    seconds: 43200,
    microseconds: 0,
};

/// Messages on the real-time channels of their lines.
pub fn hear<M: Matcher, S: Store>(gateway: &mut Gateway<M, S>, messages: &[Asked]) -> usize {
    let mut reply = [0; BUFFER];
    for message in messages {
        let _answer = gateway.real_time_message(message.line, &message.bytes, NOON, &mut reply);
    }
    messages.len()
}

/// Messages on their recovery channels.
pub fn hear_recovery<M: Matcher, S: Store>(
    gateway: &mut Gateway<M, S>,
    messages: &[Asked],
) -> usize {
    let mut reply = [0; BUFFER];
    for message in messages {
        let _answer = gateway.recovery_message(message.line, &message.bytes, NOON, &mut reply);
    }
    messages.len()
}

/// Every event of the matcher until there is none, or none is taken.
pub fn step<M: Matcher, S: Store>(gateway: &mut Gateway<M, S>) -> usize {
    for calls in 0..100_000 {
        match gateway.step(NOON) {
            Ok(Step::Nothing) | Err(_) => return calls + 1,
            Ok(_) => {}
        }
    }
    100_000
}

/// What is to be sent on every line.
pub fn send<M: Matcher, S: Store>(gateway: &mut Gateway<M, S>) -> usize {
    let mut out = [0; BUFFER];
    let mut calls: usize = 0;
    for line in 0..LINES {
        for _ in 0..100_000 {
            calls = calls.saturating_add(1);
            match gateway.send(line, &mut out) {
                Ok(0) | Err(_) => break,
                Ok(_) => {}
            }
        }
    }
    calls
}

// The sequence number of a numbered message.
fn sequence(message: &[u8; BUFFER]) -> u32 {
    u32::from_le_bytes([message[5], message[6], message[7], message[8]])
}

/// A line's reports of a partition, in as many downloads as they take.
fn download_partition<M: Matcher, S: Store>(
    heap: Global,
    gateway: &mut Gateway<M, S>,
    line: usize,
    partition: i8,
) -> Result<usize, AllocError> {
    let mut out = [0; BUFFER];
    let mut calls: usize = 0;
    let mut last = 0;
    for _ in 0..16 {
        let request = missed(heap, line, partition, last)?;
        let _answer = gateway.recovery_message(line, &request.bytes, NOON, &mut out);
        let mut sent: u32 = 0;
        for _ in 0..100 {
            calls = calls.saturating_add(1);
            match gateway.send_recovered(line, &mut out) {
                Ok(0) | Err(_) => break,
                Ok(5) => {}
                Ok(_) => {
                    sent = sent.saturating_add(1);
                    last = sequence(&out);
                }
            }
        }
        if sent < 64 {
            break;
        }
    }
    Ok(calls)
}

/// Every line's reports of every partition.
pub fn download<M: Matcher, S: Store>(
    heap: Global,
    gateway: &mut Gateway<M, S>,
) -> Result<usize, AllocError> {
    let mut calls: usize = 0;
    for line in 0..LINES {
        for partition in 1..4 {
            let made = download_partition(heap, gateway, line, partition)?;
            calls = calls.saturating_add(made);
        }
    }
    Ok(calls)
}

/// The cancellation of every trade.
pub fn undo<M: Matcher, S: Store>(gateway: &mut Gateway<M, S>) -> usize {
    let trades = gateway.venue().trade_count();
    for place in 0..trades {
        let _outcome = gateway.cancel_trade(place + 1, NOON);
    }
    trades as usize
}
