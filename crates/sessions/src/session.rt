// A line's session: what it may do on each channel, and how far it has come.
ghost use Rattle.std.specs.Prelude.{◌≡◌, true};
ghost use Rattle.sessions.specs.Sessions.{fresh, on, logged_on, closed, recovery_closed, requested, download, with_download, with_sent};
ghost use Rattle.sessions.specs.Downloads.{recovered};
ghost use Rattle.sessions.specs.Sending.{next_to_send, sent_after, found, looked};

use crate::download::{Download, HandedOut};
use codes::session::{AckResponse, Partition};
use limits::REQUESTS;
use partitions::per_partition::PerPartition;
use refusals::{LogonRefusal, RequestRefusal};
use store::Store;

/// The two channels of a line.
#[derive(Clone, Copy, Debug, PartialEq)]
pub enum Channel {
    RealTime,
    Recovery,
}

/// On which channels a line is logged on. The recovery channel is on only beside the real-time one, and a download runs
/// only there.
#[derive(Clone, Copy)]
pub enum LoggedOn {
    Off,
    /// On the real-time channel.
    Live,
    /// On both, perhaps with a download that runs.
    Recovering(Option<Download>),
}

/// What is kept of a line. `sent` is the last number of each partition that was sent or passed over, `used` are the
/// Missed Message Requests that were accepted: both outlive a connection.
#[derive(Clone, Copy)]
pub struct Session {
    pub on: LoggedOn,
    pub sent: PerPartition<u32>,
    pub used: u8,
}

impl Session {
    /// Of a line that nobody has logged on.
    pub fn new() -> Session
        ensures { result ≡ fresh }
    {
        Session {
            on: LoggedOn::Off,
            sent: PerPartition {
                one: 0,
                two: 0,
                three: 0,
            },
            used: 0,
        }
    }

    /// Whether a Logon was accepted on the channel, and no Logout or lost line has closed it since.
    pub fn is_on(self, channel: Channel) -> bool
        ensures { result ≡ on channel self }
    {
        match (channel, self.on) {
            (_, LoggedOn::Off) | (Channel::Recovery, LoggedOn::Live) => false,
            (_, LoggedOn::Recovering(_)) | (Channel::RealTime, LoggedOn::Live) => true,
        }
    }

    /// The session with a channel logged on. A Logon on the real-time channel fixes each partition's last number, above
    /// which reports are sent. Refused with 12 where the channel is on already, and 13 where the recovery channel is to
    /// be on without the real-time one; the session is then as it was.
    pub fn logon(self, channel: Channel, lasts: PerPartition<u32>) -> Result<Session, LogonRefusal>
        ensures { result ≡ logged_on channel lasts self }
    {
        match (channel, self.on) {
            (Channel::RealTime, LoggedOn::Off) => Ok(Session {
                on: LoggedOn::Live,
                sent: lasts,
                ..self
            }),
            (Channel::Recovery, LoggedOn::Off) => Err(LogonRefusal::RecoveryBeforeRealTime),
            (Channel::Recovery, LoggedOn::Live) => Ok(Session {
                on: LoggedOn::Recovering(None),
                ..self
            }),
            (Channel::RealTime, LoggedOn::Live) | (_, LoggedOn::Recovering(_)) => {
                Err(LogonRefusal::AlreadyOn)
            }
        }
    }

    /// The session with its recovery channel closed and its download ended.
    pub fn close_recovery(mut self) -> Session
        ensures { result ≡ recovery_closed self }
    {
        if let LoggedOn::Recovering(_) = self.on {
            self.on = LoggedOn::Live;
        }
        self
    }

    /// The session with both channels closed and its download ended, after a real-time Logout or a lost line. Requests
    /// stay used.
    pub fn close(mut self) -> Session
        ensures { result ≡ closed self }
    {
        self.on = LoggedOn::Off;
        self
    }

    /// The session after a Missed Message Request for the reports of a partition, none where it is not 1 to 3, above a
    /// number and up to the last, and the answer to it.
    pub fn request(
        self,
        partition: Option<Partition>,
        above: u32,
        last: u32,
    ) -> Result<(Session, AckResponse), RequestRefusal>
        requires { on Channel.Recovery self ≡ true }
        ensures { result ≡ requested partition above last self }
    {
        if let LoggedOn::Recovering(Some(_)) = self.on {
            return Err(RequestRefusal::DownloadRuns);
        }
        let Some(partition) = partition else {
            return Ok((self, AckResponse::InvalidAppId));
        };
        if self.used >= REQUESTS {
            return Ok((self, AckResponse::LimitReached));
        }
        let session = Session {
            on: LoggedOn::Recovering(Some(Download::new(partition, above, last))),
            used: self.used + 1,
            ..self
        };
        Ok((session, AckResponse::Successful))
    }

    // The owner's next report of a partition, which is then sent; where there is none, the mark moves past all that was
    // looked at, so that a later call does not look at it again.
    fn look<S: Store>(&mut self, partition: Partition, owner: usize, store: &S) -> Option<u32>
        ensures answer { result ≡ found (S.kept store.now) owner self.old.sent partition }
        ensures after { self.new ≡ with_sent self.old (looked (S.kept store.now) owner partition self.old.sent) }
    {
        let mark = self.sent.at_mut(partition);
        let next = store.next(partition, owner, *mark);
        *mark = next.unwrap_or((*mark).max(store.last(partition)));
        next
    }

    /// The next report to send to the line's CompID, if there is one: of the lowest partition that has one. It is then
    /// sent.
    pub fn next_live<S: Store>(&mut self, owner: usize, store: &S) -> Option<(Partition, u32)>
        ensures answer { result ≡ next_to_send (S.kept store.now) owner self.old.sent }
        ensures after { self.new ≡ with_sent self.old (sent_after (S.kept store.now) owner self.old.sent) }
    {
        if let Some(number) = self.look(Partition::One, owner, store) {
            return Some((Partition::One, number));
        }
        if let Some(number) = self.look(Partition::Two, owner, store) {
            return Some((Partition::Two, number));
        }
        let number = self.look(Partition::Three, owner, store)?;
        Some((Partition::Three, number))
    }

    /// What the download that runs hands out next; nothing where none runs.
    pub fn next_recovered<S: Store>(&mut self, owner: usize, store: &S) -> Option<HandedOut>
        ensures answer { result ≡ (recovered (S.kept store.now) owner (download self.old)).0 }
        ensures after { self.new ≡ with_download self.old (recovered (S.kept store.now) owner (download self.old)).1 }
    {
        match self.on {
            LoggedOn::Off | LoggedOn::Live | LoggedOn::Recovering(None) => None,
            LoggedOn::Recovering(Some(download)) => {
                let (handed, rest) = download.next(owner, store);
                self.on = LoggedOn::Recovering(rest);
                Some(handed)
            }
        }
    }
}
