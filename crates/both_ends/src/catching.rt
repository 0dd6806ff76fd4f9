// Catching up: downloads, one after the other, until every partition is level.
ghost use Rattle.std.specs.Prelude.{◌≡◌, ◌<◌, ◌≤◌, ◌+◌, ◌⊎◌, ◌↔◌, ◌≢◌, IsTrue, ℕ, List, length, true, IfOk, OnOk, OnErr};
ghost use Rattle.both_ends.specs.Allowed.{Allowed};
ghost use Rattle.both_ends.specs.Asking.{made};
ghost use Rattle.both_ends.specs.Both.{Ran};
ghost use Rattle.both_ends.specs.Catching.{CanCatchUp, CatchesUp, Downloads, IsOpen, granted, needed};
ghost use Rattle.both_ends.specs.Downloading.{Downloaded, Exchanges, IsAsked, Levelled, Passes, Reached, Ready, Waiting, left_by, left_in};
ghost use Rattle.both_ends.specs.Agreement.{place as at_place};
ghost use Rattle.both_ends.specs.Laws.{state_of};
ghost use Rattle.follower.specs.declared.side.State.TheVariants.{Level};
ghost use Rattle.codes.specs.declared.session.Partition.{Partition};
ghost use Rattle.follower.specs.Following.{download_of};
ghost use Rattle.follower.specs.Sides.{is_level};
ghost use Rattle.follower.specs.declared.stage.Stage.TheVariants.{Idle};
ghost use Rattle.both_ends.specs.declared.call.Call.TheVariants.{Venue as OfVenue};

use crate::allowed::has_failed;
use crate::call::{Call, Done};
use crate::entry::Entry;
use crate::question::Question;
use crate::replies::{bytes, written};
use crate::state::BothEnds;
use codes::code::Code;
use codes::session::Partition;
use follower::stage::Stage;
use gateway_runs::call::{Call as VenueCall, Done as VenueDone};
use limits::{DOWNLOADED, REQUESTS};
use matching::matcher::Matcher;
use std::alloc::{AllocError, Global};
use store::Store;
use texts::values::Time;
use wire::message::BUFFER;

// A buffer with room for any message.
fn buffer(heap: Global) -> Result<Vec<u8>, AllocError>
    ensures { IfOk result (λ b. length b.items ≡ 512) }
{
    vec![in heap; 0; BUFFER]
}

// The bytes that a call left for the other end.
fn left_by<'a>(done: &'a Done) -> &'a [u8]
    ensures { result.now ≡ left_by done.now }
{
    match done {
        Done::Venue(VenueDone::RealTime(_, _, _, reply))
        | Done::Venue(VenueDone::Recovery(_, _, _, reply))
        | Done::Venue(VenueDone::Send(_, reply))
        | Done::Venue(VenueDone::SendRecovered(_, reply)) => bytes(reply),
        Done::Ask(_, asked) => written(asked),
        _ => &[],
    }
}

// A copy of the bytes that the last call left.
fn left<Q, A>(heap: Global, entry: Option<&Entry<Q, A>>) -> Result<Vec<u8>, AllocError>
    ensures { IfOk result (λ m. m.items ≡ left_in entry.entry) }
{
    match entry {
        Some(Entry::Made(done)) => Vec::from_slice(heap, left_by(done)),
        _ => Ok(Vec::new(heap)),
    }
}

impl<M: Matcher, S: Store, Q: Question<A>, A: Copy> BothEnds<M, S, Q, A> {
    /// Downloads what the follower of a line's CompID misses until every partition is level: of each that is not, in turn,
    /// a download is asked, its request given to the gateway, and what is handed out given to the follower, again and
    /// again while that brings anything. Nothing else is called, and nothing that the line does not allow; each call is
    /// kept. A desk that can catch up does: where its follower is up and awaits no download, its recovery channel is
    /// logged on, and as many of the day's 48 requests are left as each partition has reports above its place, by 64
    /// rounded up, and one where it has none. Its one error is want of memory; what was called until then stands.
    pub fn catch_up(&mut self, line: usize, time: Time) -> Result<(), AllocError>
        ensures calls { Downloads M.Did M.guided M.Learns Q.answer line self.old self.new }
        ensures allowed { Allowed line (made self.old.log) → Allowed line (made self.new.log) }
        ensures level { OnOk result (CanCatchUp line (made self.old.log) self.old.gateway.state self.old.desk
            → CatchesUp line self.old self.new) }
    {
        if has_failed(self.heap, line, self.log())? {
            return Ok(());
        }
        self.level(line, time, Partition::One)?;
        self.level(line, time, Partition::Two)?;
        self.level(line, time, Partition::Three)
    }

    fn is_level(&self, partition: Partition) -> bool
        ensures { result ≡ is_level (state_of self.now.desk partition) }
    {
        self.follower().is_level(partition)
    }

    // Whether no download is awaited.
    fn is_idle(&self) -> bool
        ensures { IsTrue result ↔ (download_of self.now.desk.follower ≡ Idle) }
    {
        matches!(self.follower().download(), Stage::Idle)
    }

    // Downloads a partition until it is level, or a download brings nothing more.
    fn level(&mut self, line: usize, time: Time, partition: Partition) -> Result<(), AllocError>
        ensures calls { Downloads M.Did M.guided M.Learns Q.answer line self.old self.new }
        ensures line { Reached (made self.old.log) self.old.gateway.state self.old.desk
            → IsOpen line (made self.old.log) → IsOpen line (made self.new.log) }
        ensures levelled { OnOk result (Ready line self.old
            → granted line self.old.gateway.state + needed line self.old.gateway.state self.old.desk partition ≤ 48
            → Levelled line partition self.old self.new) }
    {
        for asked in 0..REQUESTS {
            if self.is_level(partition) {
                return Ok(());
            }
            if !self.download(line, time, partition)? {
                return Ok(());
            }
        }
        Ok(())
    }

    // One download of a partition, from its request to its end or as far as it comes. Says whether it brought anything.
    fn download(
        &mut self,
        line: usize,
        time: Time,
        partition: Partition,
    ) -> Result<bool, AllocError>
        ensures calls { Downloads M.Did M.guided M.Learns Q.answer line self.old self.new }
        ensures line { Reached (made self.old.log) self.old.gateway.state self.old.desk
            → IsOpen line (made self.old.log) → IsOpen line (made self.new.log) }
        ensures whole { IfOk result (λ brought. Ready line self.old → granted line self.old.gateway.state < 48
            → (brought ≡ true) × Downloaded line partition self.old self.new) }
    {
        let place = self.follower().place(partition);
        let request = self.pass(Call::Ask(partition.byte(), buffer(self.heap)?))?;
        if request.is_empty() {
            return Ok(false);
        }
        self.load(line, time, request)?;
        Ok(self.is_further(partition, place))
    }

    // Whether a partition is level, or has left this place.
    fn is_further(&self, partition: Partition, place: u32) -> bool
        ensures level { state_of self.now.desk partition ≡ Level → result ≡ true }
        ensures moved { at_place self.now.desk partition ≢ place → result ≡ true }
    {
        self.is_level(partition) || self.follower().place(partition) != place
    }

    // The request is given to the gateway, and what is then handed out to the follower, to the end of the download or as
    // far as it comes.
    fn load(&mut self, line: usize, time: Time, request: Vec<u8>) -> Result<(), AllocError>
        ensures calls { Downloads M.Did M.guided M.Learns Q.answer line self.old self.new }
        ensures line { Reached (made self.old.log) self.old.gateway.state self.old.desk
            → IsAsked line request.items (made self.old.log) → IsOpen line (made self.new.log) }
        ensures whole { OnOk result ((p : Partition) → Waiting line p request.items self.old
            → granted line self.old.gateway.state < 48 → Downloaded line p self.old self.new) }
    {
        if !self.exchange(VenueCall::Recovery(line, request, time, buffer(self.heap)?))? {
            return Ok(());
        }
        // each report, and the end
        for sent in 0..DOWNLOADED + 1 {
            if self.is_idle() {
                return Ok(());
            }
            if !self.exchange(VenueCall::SendRecovered(line, buffer(self.heap)?))? {
                return Ok(());
            }
        }
        Ok(())
    }

    // Makes a call of the gateway, and gives the follower what it left, if that is anything. Says whether it was.
    fn exchange(&mut self, call: VenueCall) -> Result<bool, AllocError>
        ensures exchanged { IfOk result (λ came. Exchanges M.Did call came self.old self.new) }
        ensures error { OnErr result ((self.new ≡ self.old)
            ⊎ ((h : List ℕ) × Passes M.Did (OfVenue call) h self.old self.new)) }
    {
        let message = self.pass(Call::Venue(call))?;
        if message.is_empty() {
            return Ok(false);
        }
        self.make(Call::Recovered(message))?;
        Ok(true)
    }

    // Makes a call, and hands out a copy of the bytes that it left for the other end.
    #[tactic(auto, using(crate::proofs::Passing::passes, crate::proofs::Reaching::none_made))]
    fn pass(&mut self, call: Call) -> Result<Vec<u8>, AllocError>
        ensures passed { IfOk result (λ m. Passes M.Did call m.items self.old self.new) }
        ensures error { OnErr result ((self.new ≡ self.old)
            ⊎ ((h : List ℕ) × Passes M.Did call h self.old self.new)) }
    {
        self.make(call)?;
        left(self.heap, self.last())
    }
}
