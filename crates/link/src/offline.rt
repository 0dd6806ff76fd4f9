// Logging on.
ghost use Rattle.link.specs.Replies.{Asked};

use crate::awaiting::Awaiting;
use crate::sending::send;
use session_messages::logon::Logon;
use wire::message::{Message, TooShort};

/// A link that is not logged on.
#[derive(Debug, Drop)]
pub struct Offline;

impl Offline {
    /// Writes a Logon to the front of the buffer, and says how many bytes it has; those past it stay. Where the buffer is
    /// too short it stays as it is, and so does the link.
    pub fn logon(
        self,
        logon: &Logon<'_>,
        out: &mut [u8],
    ) -> Result<(usize, Awaiting), (Offline, TooShort)>
        ensures { Asked logon.now out.old out.new result }
    {
        match send(&Message::Logon(*logon), out) {
            Ok(len) => Ok((len, Awaiting::of(logon))),
            Err(short) => Err((self, short)),
        }
    }
}
