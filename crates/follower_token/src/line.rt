// What happens on a desk's line. Every download that is asked comes to its end, since the token of one that has not
// cannot be let go.
ghost use Rattle.std.specs.Prelude.{◌≡◌, false};
ghost use Rattle.follower.specs.declared.stage.Stage.TheVariants.{Idle};
ghost use Rattle.follower.specs.Following.{download_of, is_up, turned};
ghost use Rattle.follower.specs.Owing.{Tied};

use follower::answer::{Live, Recovered};
use follower::fault::FollowerFault;
use follower::pending::Pending;
use follower::state::Follower;
use std::io;
use wire::message::BUFFER;

/// A connection begins or ends, a message comes on one of its channels, or the desk asks for a partition's
/// download.
#[derive(Drop)]
pub enum Event {
    Up,
    Lost,
    Live(Vec<u8>),
    Recovered(Vec<u8>),
    Ask(u8),
}

/// What the follower answers.
#[derive(Clone, Copy)]
pub enum Answer {
    Done,
    Live(Live),
    Recovered(Recovered),
    Asked(usize),
    Refused(FollowerFault),
}

impl From<Result<Live, FollowerFault>> for Answer {
    ghost use Rattle.std.specs.Prelude.{◌≡◌, MatchResult};
    ghost use Rattle.follower_token.specs.declared.line.Answer.TheVariants.{Live, Refused};

    ghost from_gives = { λ r a. MatchResult r (λ x. a ≡ Live x) (λ e. a ≡ Refused e) };

    fn from(answer: Result<Live, FollowerFault>) -> Answer {
        match answer {
            Ok(live) => Answer::Live(live),
            Err(fault) => Answer::Refused(fault),
        }
    }
}

impl From<Result<Recovered, FollowerFault>> for Answer {
    ghost use Rattle.std.specs.Prelude.{◌≡◌, MatchResult};
    ghost use Rattle.follower_token.specs.declared.line.Answer.TheVariants.{Recovered, Refused};

    ghost from_gives = { λ r a. MatchResult r (λ x. a ≡ Recovered x) (λ e. a ≡ Refused e) };

    fn from(answer: Result<Recovered, FollowerFault>) -> Answer {
        match answer {
            Ok(recovered) => Answer::Recovered(recovered),
            Err(fault) => Answer::Refused(fault),
        }
    }
}

impl From<Result<usize, FollowerFault>> for Answer {
    ghost use Rattle.std.specs.Prelude.{◌≡◌, MatchResult};
    ghost use Rattle.follower_token.specs.declared.line.Answer.TheVariants.{Asked, Refused};

    ghost from_gives = { λ r a. MatchResult r (λ x. a ≡ Asked x) (λ e. a ≡ Refused e) };

    fn from(answer: Result<usize, FollowerFault>) -> Answer {
        match answer {
            Ok(len) => Answer::Asked(len),
            Err(fault) => Answer::Refused(fault),
        }
    }
}

fn print<R: Print>(rt: &R, answer: Answer) -> io::Result<()> {
    match answer {
        Answer::Done => println!(rt; "done"),
        Answer::Live(live) => println!(rt; "live: {live}"),
        Answer::Recovered(recovered) => println!(rt; "recovered: {recovered}"),
        Answer::Asked(len) => println!(rt; "asked in {len} bytes"),
        Answer::Refused(fault) => println!(rt; "refused {}: {fault}", fault.number()),
    }
}

fn take(
    follower: &mut Follower,
    event: &Event,
    out: &mut [u8],
    pending: Pending,
) -> (Answer, Pending)
    ensures { Tied pending follower.old → Tied result.1 follower.new }
{
    match event {
        Event::Up => (Answer::Done, follower.up(pending)),
        Event::Lost => (Answer::Done, follower.lost(pending)),
        Event::Live(message) => {
            let (answer, pending) = follower.live(message, pending);
            (answer.into(), pending)
        }
        Event::Recovered(message) => {
            let (answer, pending) = follower.recovered(message, pending);
            (answer.into(), pending)
        }
        Event::Ask(partition) => {
            let (answer, pending) = follower.ask(*partition, out, pending);
            (answer.into(), pending)
        }
    }
}

// Both desks' lines are lost. The other desk owes nothing, so it gives the token back as it is: only the follower that
// waits for the download can spend it.
fn hang_up(follower: &mut Follower, other: &mut Follower, pending: Pending)
    requires tie { Tied pending follower.old }
    requires other { download_of other.old ≡ Idle }
    ensures after { follower.new ≡ turned false follower.old }
    ensures other_after { other.new ≡ turned false other.old }
{
    let pending = other.lost(pending);
    let _idle = follower.lost(pending);
}

/// Takes what happens on a line, and prints each answer. At the end, and where printing fails, the line is lost, so
/// that no download is left that was asked; and so is the line of a desk that asks for none.
pub fn day<R: Print>(
    rt: &R,
    follower: &mut Follower,
    other: &mut Follower,
    events: &[Event],
) -> io::Result<()>
    requires follower { download_of follower.old ≡ Idle }
    requires other { download_of other.old ≡ Idle }
    ensures down { is_up follower.new ≡ false }
    ensures none { download_of follower.new ≡ Idle }
    ensures other { other.new ≡ turned false other.old }
{
    let mut out = [0; BUFFER];
    let mut pending = Pending::Idle;
    let mut printed = Ok(());
    for event in events {
        let (answer, left) = take(follower, event, &mut out, pending);
        pending = left;
        printed = print(rt, answer);
        if printed.is_err() {
            break;
        }
    }
    hang_up(follower, other, pending);
    printed
}
