// What happens to a line: a Logon, and its end.
ghost use Rattle.std.specs.Prelude.{◌≡◌, ◌<◌, [], length, slice_get};
ghost use Rattle.gateway.specs.Doing.{Comes, Stays};
ghost use Rattle.gateway.specs.Lines.{is_known, admits, ends_of, ends_orders, logon, line_closed};

use crate::gateway::Gateway;
use answers::answer::{Admission, Answer};
use configuration::participant::Participant;
use matching::matcher::Matcher;
use refusals::LogonRefusal;
use requests::selection::{Cause, Owners, Reach, Selection, withdraw_all};
use session_messages::logon::Logon;
use sessions::session::Channel;
use store::Store;
use texts::values::Time;

fn is_known(participant: &Participant, m: &Logon<'_>) -> bool
    ensures { result ≡ is_known participant.now m.now }
{
    m.comp_id.as_bytes() == participant.name.as_bytes()
        && m.password.as_bytes() == participant.password.as_bytes()
        && m.new_password.as_bytes().is_empty()
}

impl<M: Matcher, S: Store> Gateway<M, S> {
    fn is_admitted(&self, line: usize, m: &Logon<'_>) -> bool
        ensures { result ≡ admits (slice_get self.now.state.participants line) m.now }
    {
        match self.participants.get(line) {
            Some(participant) => is_known(participant, m),
            None => false,
        }
    }

    fn ends_orders(&self, line: usize) -> bool
        ensures { result ≡ ends_orders (slice_get self.now.state.participants line) }
    {
        match self.participants.get(line) {
            Some(participant) => participant.ends_orders,
            None => false,
        }
    }

    // A Logon on a channel of a line.
    pub(crate) fn logon(&mut self, channel: Channel, line: usize, m: &Logon<'_>) -> Answer
        requires { line < length self.old.state.lines }
        ensures answer { result ≡ (logon channel line m.now self.old.state).0 }
        ensures after { Stays self.old self.new (logon channel line m.now self.old.state).1 [] }
    {
        let known = self.is_admitted(line, m);
        match self.session(line).logon(channel, self.lasts()) {
            Err(refusal) => Answer::LogonReply(Admission::Refused(refusal)),
            Ok(_) if !known => {
                Answer::LogonReply(Admission::Refused(LogonRefusal::BadCredentials))
            }
            Ok(session) => {
                self.set_session(line, session);
                Answer::LogonReply(Admission::Accepted)
            }
        }
    }

    // Both channels of a line are closed; its marked orders expire, where they are to.
    pub(crate) fn close_line(&mut self, line: usize, time: Time)
        requires { line < length self.old.state.lines }
        ensures { Comes M.Did time self.old self.new (line_closed line self.old.state) (ends_of line self.old.state) }
    {
        let session = self.session(line).close();
        self.set_session(line, session);
        if self.ends_orders(line) {
            let selection = Selection {
                owners: Owners::Line(line),
                reach: Reach::All,
                marked: true,
            };
            withdraw_all(&mut self.venue, &selection, Cause::LineLost, time);
        }
    }
}
