// The seven calls of a gateway.
ghost use Rattle.std.specs.Prelude.{◌≡◌, ◌<◌, ◌≤◌, length, Some};
ghost use Rattle.wire.specs.declared.message.TheConstants.{BUFFER};
ghost use Rattle.report_messages.specs.Sent.{Sent};
ghost use Rattle.gateway.specs.Calls.{Steps, Undoes, Loses, Sends, Recovers};
ghost use Rattle.gateway.specs.Doing.{Comes, Stays};
ghost use Rattle.gateway.specs.Hearing.{Hears};
ghost use Rattle.gateway.specs.State.{venue_of};
ghost use Rattle.gateway.specs.Telling.{RecoverTold, SendTold};
ghost use Rattle.requests.specs.Deciding.{spare};
ghost use Rattle.sessions.specs.declared.session.Channel.TheVariants.{RealTime, Recovery};
ghost use Rattle.store.specs.Messages.{StoredTold, stored_bytes};
ghost use Rattle.venue.specs.Telling.{Told};

use crate::fault::{GatewayFault, SessionFault};
use crate::gateway::Gateway;
use answers::sending::write_end;
use codes::session::Partition;
use configuration::participant::Participant;
use limits::TRADES;
use matching::matcher::Matcher;
use matching::midpoint::MidpointRefusal;
use sessions::download::HandedOut;
use sessions::session::Channel;
use store::Store;
use texts::values::{Price, Time};
use venue::step::Step;
use venue::venue::Venue;

impl<M: Matcher, S: Store> Gateway<M, S> {
    /// Takes a message on a line's real-time channel, and says how many bytes the answer has at the front of `reply`: 0
    /// where there is none. The buffer needs 512 bytes; those past the answer stay. A message that is not taken is
    /// answered with a Reject, a Logon with a Logon Reply; an order's fate is a report, which `send` hands out. Refused
    /// with 6, 14, or with the wire's 1 to 5, which leave a Reject in `reply` too; the state is then as it was.
    pub fn real_time_message(
        &mut self,
        line: usize,
        message: &[u8],
        time: Time,
        reply: &mut [u8],
    ) -> Result<usize, GatewayFault>
        ensures { Hears (Comes M.Did time self.old self.new) (record {
          channel = RealTime;
          line = line;
          bytes = message.now;
          time = time;
          buffer = reply.old;
          spare = spare (venue_of self.old);
        }) self.old.state result reply.new }
    {
        self.hear(Channel::RealTime, line, message, time, reply)
    }

    /// Takes a message on a line's recovery channel, as `real_time_message` does on the other, with the same refusals.
    pub fn recovery_message(
        &mut self,
        line: usize,
        message: &[u8],
        time: Time,
        reply: &mut [u8],
    ) -> Result<usize, GatewayFault>
        ensures { Hears (Comes M.Did time self.old self.new) (record {
          channel = Recovery;
          line = line;
          bytes = message.now;
          time = time;
          buffer = reply.old;
          spare = spare (venue_of self.old);
        }) self.old.state result reply.new }
    {
        self.hear(Channel::Recovery, line, message, time, reply)
    }

    /// Takes one event of the matcher, and says what it was. Refused with 41 where there are 512 trades, and 29 where
    /// spare is under 2, tried in this order; then nothing changes.
    pub fn step(&mut self, time: Time) -> Result<Step, GatewayFault>
        ensures { Steps (Comes M.Did time self.old self.new) (spare (venue_of self.old)) self.old.state result }
    {
        if self.venue.trade_count() >= TRADES as u64 {
            return Err(GatewayFault::TradesFull);
        }
        if self.venue.spare() < 2 {
            return Err(GatewayFault::NoPlace);
        }
        Ok(self.venue.step(time))
    }

    /// Cancels a trade, by its number. Refused with 42 where there is none, 43 where it was cancelled before, and 29
    /// where spare is under 4, tried in this order; then nothing changes.
    pub fn cancel_trade(&mut self, trade: u64, time: Time) -> Result<(), GatewayFault>
        ensures { Undoes (Comes M.Did time self.old self.new) trade (spare (venue_of self.old)) self.old.state result }
    {
        match self.venue.trade(trade) {
            None => Err(GatewayFault::NoSuchTrade),
            Some(row) if row.cancelled => Err(GatewayFault::AlreadyCancelled),
            Some(_) if self.venue.spare() < 4 => Err(GatewayFault::NoPlace),
            Some(_) => {
                self.venue.undo(trade, time);
                Ok(())
            }
        }
    }

    /// Closes both channels of a line whose connection is gone; its marked orders expire, if it is configured so.
    /// Refused with 14 or 10.
    pub fn line_lost(&mut self, line: usize, time: Time) -> Result<(), GatewayFault>
        ensures { Loses (Comes M.Did time self.old self.new) line self.old.state result }
    {
        self.check_line(line)?;
        self.check_on(Channel::RealTime, line)?;
        self.close_line(line, time);
        Ok(())
    }

    // Writes the message of the report of a number to the front of the buffer, as the store keeps it.
    fn write_stored(&self, partition: Partition, number: u32, out: &mut [u8]) -> usize
        requires room { BUFFER ≤ length out.old }
        ensures sent { Sent (stored_bytes self.now.state.venue.kept partition number) out.old out.new result }
        ensures told { StoredTold self.now.state.venue.kept partition number }
    {
        self.venue.store().write_message(partition, number, out)
    }

    /// Hands out the next report of the line's CompID on its real-time channel: its bytes, at the front of `out`, and
    /// how many; 0 where there is none. Refused with 6, 14 or 10.
    pub fn send(&mut self, line: usize, out: &mut [u8]) -> Result<usize, GatewayFault>
        ensures hands { Sends (Stays self.old self.new) line self.old.state out.old result out.new }
        ensures told { SendTold (length out.old) line self.old.state }
    {
        self.check_call(out.len(), line)?;
        self.check_on(Channel::RealTime, line)?;
        let mut session = self.session(line);
        let next = session.next_live(line, self.venue.store());
        self.set_session(line, session);
        match next {
            Some((partition, number)) => Ok(self.write_stored(partition, number, out)),
            None => Ok(0),
        }
    }

    /// Hands out the next message of the line's download: a report, or the download's end; 0 where none runs. Refused
    /// with 6, 14 or 10.
    pub fn send_recovered(&mut self, line: usize, out: &mut [u8]) -> Result<usize, GatewayFault>
        ensures hands { Recovers (Stays self.old self.new) line self.old.state out.old result out.new }
        ensures told { RecoverTold (length out.old) line self.old.state }
    {
        self.check_call(out.len(), line)?;
        self.check_on(Channel::Recovery, line)?;
        let mut session = self.session(line);
        let next = session.next_recovered(line, self.venue.store());
        self.set_session(line, session);
        match next {
            Some(HandedOut::Report(partition, number)) => {
                Ok(self.write_stored(partition, number, out))
            }
            Some(HandedOut::Ended(response)) => Ok(write_end(response, out)),
            None => Ok(0),
        }
    }

    /// Tells the matcher an instrument's midpoint price, or that it has none. It is no call of a line: no order, no report and
    /// no session changes. Refused as the matcher refuses it: with 21 where it is not told midpoints, else with 20 where the
    /// instrument's number is not under 32, or 22 where the price is not above 0, tried in this order; then nothing changes.
    pub fn midpoint(
        &mut self,
        instrument: usize,
        price: Option<Price>,
    ) -> Result<(), MidpointRefusal>
        ensures { Told M.guided M.Learns instrument price result self.old self.new }
    {
        self.venue.midpoint(instrument, price)
    }

    /// What the venue keeps: orders, trades, instruments, the matcher and the store, to look at.
    pub fn venue(&self) -> &Venue<M, S>
        ensures { result.now ≡ venue_of self.now }
    {
        &self.venue
    }

    /// The CompIDs, each with the line of its place.
    pub fn participants(&self) -> &[Participant]
        ensures { result.now ≡ self.now.state.participants }
    {
        &self.participants
    }
}
