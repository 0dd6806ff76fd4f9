// The five calls of a follower. Each takes a token of what is owed, and gives back what is owed after it: a call that
// ends a download of this follower spends it, and any other gives it back, so none is lost by a follower that it is
// not of.
ghost use Rattle.std.specs.Prelude.{◌≡◌, true, false, length, IfOk};
ghost use Rattle.follower.specs.Following.{download_of, turned, live_step, recovered_step};
ghost use Rattle.follower.specs.Hearing.{heard_in};
ghost use Rattle.follower.specs.Owing.{owed, token_after, BeginsNone, Tied, Covers};
ghost use Rattle.follower.specs.declared.stage.Stage.TheVariants.{Idle};
ghost use Rattle.follower.specs.Asking.{asks, asking, ReadBack};
ghost use Rattle.partitions.specs.PerPartition.{at};

use crate::answer::{Live, Recovered};
use crate::fault::FollowerFault;
use crate::line::Line;
use crate::pending::Pending;
use crate::reading::hear;
use crate::request::write_request;
use crate::stage::Stage;
use crate::state::Follower;
use codes::code::Code;
use codes::session::Partition;
use wire::message::BUFFER;

impl Follower {
    /// The line is up: all partitions are behind, nothing is held, and a download has ended. Places and standings
    /// stay.
    #[tactic(auto, using(crate::proofs::Ties::settled))]
    pub fn up(&mut self, pending: Pending) -> Pending
        ensures after { self.new ≡ turned true self.old }
        ensures token { result ≡ token_after self.old self.new pending }
        ensures tie { Tied pending self.old → Tied result self.new }
        ensures covered { Covers pending self.old result self.new }
    {
        let before = self.line.download();
        self.turn(true);
        pending.settle(before, self.line.download())
    }

    /// The line is lost: the same, but the follower is not up.
    #[tactic(auto, using(crate::proofs::Ties::settled))]
    pub fn lost(&mut self, pending: Pending) -> Pending
        ensures after { self.new ≡ turned false self.old }
        ensures token { result ≡ token_after self.old self.new pending }
        ensures tie { Tied pending self.old → Tied result self.new }
        ensures covered { Covers pending self.old result self.new }
    {
        let before = self.line.download();
        self.turn(false);
        pending.settle(before, self.line.download())
    }

    /// Takes a message that came on the real-time channel. Refused with 1 to 5 where the bytes are no message that a
    /// follower reads (by the check of the message that fails), with 50 where it is not up, with 53 where the report
    /// does not fit what is known, with 55 where there is no room for its order: then the follower and the token are
    /// as they were. A report that finds the hold full is not refused: it passes, and the partition is overrun until a
    /// download has brought all that passed.
    #[tactic(auto, using(crate::proofs::Ties::settled))]
    pub fn live(&mut self, bytes: &[u8], pending: Pending) -> (Result<Live, FollowerFault>, Pending)
        ensures answer { result.0 ≡ (live_step self.old (heard_in bytes.now)).answer }
        ensures after { self.new ≡ (live_step self.old (heard_in bytes.now)).after }
        ensures token { result.1 ≡ token_after self.old self.new pending }
        ensures tie { Tied pending self.old → Tied result.1 self.new }
        ensures covered { Covers pending self.old result.1 self.new }
    {
        let before = self.line.download();
        let answer = self.take_live(bytes);
        (answer, pending.settle(before, self.line.download()))
    }

    /// Takes a message that came on the recovery channel. Refused with 1 to 5 where the bytes are no message that a
    /// follower reads, with 50 where it is not up, with 51 where a report is not of the download's partition, with 52
    /// where the download does not wait for such a message, with 53 where a report, or one that is held when the
    /// download completes, does not fit what is known, with 55 where there is no room for its order: then the follower
    /// and the token are as they were.
    #[tactic(auto, using(crate::proofs::Ties::settled))]
    pub fn recovered(
        &mut self,
        bytes: &[u8],
        pending: Pending,
    ) -> (Result<Recovered, FollowerFault>, Pending)
        ensures answer { result.0 ≡ (recovered_step self.old (heard_in bytes.now)).answer }
        ensures after { self.new ≡ (recovered_step self.old (heard_in bytes.now)).after }
        ensures token { result.1 ≡ token_after self.old self.new pending }
        ensures tie { Tied pending self.old → Tied result.1 self.new }
        ensures covered { Covers pending self.old result.1 self.new }
    {
        let before = self.line.download();
        let answer = self.take_recovered(bytes);
        (answer, pending.settle(before, self.line.download()))
    }

    /// Writes a request for the reports of a partition above its place, and says how many bytes it has; the bytes
    /// past it stay. Refused with 6 where the buffer has fewer than 512 bytes, with 50 where the follower is not up,
    /// with 51 where there is no such partition, with 52 where a download is asked or runs already, or the token is
    /// owed: then the follower, the token and the buffer are as they were.
    pub fn ask(
        &mut self,
        partition: u8,
        out: &mut [u8],
        pending: Pending,
    ) -> (Result<usize, FollowerFault>, Pending)
        ensures answer { result.0 ≡ (asks self.old pending partition out.old).answer }
        ensures after { self.new ≡ (asks self.old pending partition out.old).after }
        ensures bytes { out.new ≡ (asks self.old pending partition out.old).out }
        ensures token { result.1 ≡ token_after self.old self.new pending }
        ensures tie { Tied pending self.old → Tied result.1 self.new }
        ensures covered { Covers pending self.old result.1 self.new }
        ensures read { IfOk
            (asking self.old pending partition (length out.old))
            (λ p. ReadBack p (at self.old.sides p).place) }
    {
        match self.asked(partition, out.len(), &pending) {
            Ok(partition) => {
                let len = write_request(partition, &self.sides.at(partition).place, out);
                self.line = Line::Up(Stage::Asked(partition));
                (Ok(len), pending.begin(partition))
            }
            Err(fault) => (Err(fault), pending),
        }
    }

    fn take_live(&mut self, bytes: &[u8]) -> Result<Live, FollowerFault>
        ensures answer { result ≡ (live_step self.old (heard_in bytes.now)).answer }
        ensures after { self.new ≡ (live_step self.old (heard_in bytes.now)).after }
        ensures none { BeginsNone self.old self.new }
    {
        let heard = hear(bytes)?;
        if !self.line.is_up() {
            return Err(FollowerFault::NotUp);
        }
        self.live_heard(heard)
    }

    fn take_recovered(&mut self, bytes: &[u8]) -> Result<Recovered, FollowerFault>
        ensures answer { result ≡ (recovered_step self.old (heard_in bytes.now)).answer }
        ensures after { self.new ≡ (recovered_step self.old (heard_in bytes.now)).after }
        ensures none { BeginsNone self.old self.new }
    {
        let heard = hear(bytes)?;
        if !self.line.is_up() {
            return Err(FollowerFault::NotUp);
        }
        self.recovered_heard(heard)
    }

    // The partition to ask of, or the first check that fails.
    fn asked(
        &self,
        partition: u8,
        room: usize,
        pending: &Pending,
    ) -> Result<Partition, FollowerFault>
        ensures answer { result ≡ asking self.now pending.now partition room }
        ensures free { IfOk result (λ _. (download_of self.now ≡ Idle) × (owed pending.now ≡ None)) }
    {
        if room < BUFFER {
            return Err(FollowerFault::Buffer);
        }
        if !self.line.is_up() {
            return Err(FollowerFault::NotUp);
        }
        let partition = <Partition as Code>::of(partition).ok_or(FollowerFault::Partition)?;
        match (self.line.download(), pending.owed()) {
            (Stage::Idle, None) => Ok(partition),
            _ => Err(FollowerFault::OutOfTurn),
        }
    }
}
