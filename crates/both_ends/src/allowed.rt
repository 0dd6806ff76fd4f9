// What the line of a follower's CompID allows.
ghost use Rattle.std.specs.Prelude.{◌≡◌, IfOk};
ghost use Rattle.both_ends.specs.Allowed.{after_log, quiet};
ghost use Rattle.both_ends.specs.Breaches.{breach_text};
ghost use Rattle.both_ends.specs.Asking.{made};
ghost use Rattle.both_ends.specs.Deciding.{after_entry, failed_in, onto, verdict};

use crate::entry::Entry;
use crate::watch::Watch;
use std::alloc::{AllocError, Global};

/// Why the line does not allow a call: an accepted Logon while the follower is up, an up with no new accepted Logon, a
/// report given live that is not the next under way, something given on the recovery channel that is neither the next
/// under way nor a report of the download that came before, a request that the follower did not write, and a request
/// that is granted on a recovery channel whose first Logon was no message.
#[derive(Clone, Copy, Debug, PartialEq)]
pub enum Breach {
    StillUp,
    NoLogon,
    LiveOutOfTurn,
    RecoveredOutOfTurn,
    NotAsked,
    GrantedOverFailure,
}

impl Breach {
    /// What happened.
    pub fn text(self) -> &'static str
        ensures { result.now ≡ breach_text self }
    {
        match self {
            Breach::StillUp => "a Logon was accepted while the follower was up",
            Breach::NoLogon => "the follower was up with no new Logon accepted",
            Breach::LiveOutOfTurn => "a report came live that was not the next under way",
            Breach::RecoveredOutOfTurn =>
                "a message of the recovery channel came that was not the next under way",
            Breach::NotAsked =>
                "the gateway was given a request that the follower did not write, or one twice",
            Breach::GrantedOverFailure =>
                "a request was granted though the first Logon of its channel was no message",
        }
    }
}

fn after_entry<'a, Q, A>(
    watch: &mut Watch<'a>,
    line: usize,
    entry: &'a Entry<Q, A>,
) -> Result<Result<(), Breach>, AllocError>
    ensures { IfOk result (λ r. after_entry line entry.now watch.old ≡ onto r watch.new) }
{
    match entry {
        Entry::Made(done) => watch.after_call(line, done),
        Entry::Midpoint(_, _, _) | Entry::Asked(_, _) => Ok(Ok(())),
    }
}

// The line of a CompID after a log, or the first breach.
fn watched<'a, Q, A>(
    alloc: Global,
    line: usize,
    log: &'a [Entry<Q, A>],
) -> Result<Result<Watch<'a>, Breach>, AllocError>
    ensures { IfOk result (λ r. r ≡ after_log line (made log.now) quiet) }
{
    let mut watch = Watch::quiet(alloc);
    for entry in log {
        if let Err(breach) = after_entry(&mut watch, line, entry)? {
            return Ok(Err(breach));
        }
    }
    Ok(Ok(watch))
}

/// Whether the line of a CompID allows the calls of a log, or the first breach. Want of memory is its one error.
pub fn line_allows<Q, A>(
    alloc: Global,
    line: usize,
    log: &[Entry<Q, A>],
) -> Result<Result<(), Breach>, AllocError>
    ensures { IfOk result (λ r. r ≡ verdict (after_log line (made log.now) quiet)) }
{
    match watched(alloc, line, log)? {
        Ok(_) => Ok(Ok(())),
        Err(breach) => Ok(Err(breach)),
    }
}

/// Whether the recovery channel of a line that allows a log began with a Logon that is no message.
pub(crate) fn has_failed<Q, A>(
    alloc: Global,
    line: usize,
    log: &[Entry<Q, A>],
) -> Result<bool, AllocError>
    ensures { IfOk result (λ r. r ≡ failed_in (after_log line (made log.now) quiet)) }
{
    match watched(alloc, line, log)? {
        Ok(watch) => Ok(watch.has_failed()),
        Err(_) => Ok(false),
    }
}
