// The messages of a session, with texts of their own.
ghost use Rattle.std.specs.Prelude.{◌≡◌, []};
ghost use Rattle.texts.specs.Bytes.{said};

use codes::session::Version;
use session_messages::logon::Logon as LogonMessage;
use session_messages::logout::Logout as LogoutMessage;
use texts::fixed::FixedText;
use texts::names::{CompId, LogoutReason, Password};

/// Who sends a message.
#[derive(Clone, Copy)]
pub struct Sender {
    pub name: CompId,
    pub password: Password,
}

impl Sender {
    ghost use Rattle.bench_words.specs.Senders.{says_nothing};

    /// Nobody: neither a name nor a password.
    pub fn nobody() -> Sender
        ensures { says_nothing result }
    {
        Sender {
            name: FixedText::empty(),
            password: FixedText::empty(),
        }
    }
}

/// A Logon that keeps its password.
#[derive(Clone, Copy)]
pub struct Logon {
    sender: Sender,
    new_password: Password,
    ghost kept: { said new_password.bytes ≡ [] },
}

impl Logon {
    ghost use Rattle.session_messages.specs.Session.{logon_contents};
    ghost use Rattle.bench_words.specs.Sessions.{logon_asked};

    /// A Logon of this sender, whose password stays.
    pub fn new(sender: &Sender) -> Logon
        ensures { result.sender ≡ sender.now }
    {
        Logon {
            sender: *sender,
            new_password: FixedText::empty(),
        }
    }

    /// The message, which lends the texts.
    pub fn message(&self) -> LogonMessage<'_>
        ensures { logon_contents result ≡ logon_asked (said self.now.sender.name.bytes)
            (said self.now.sender.password.bytes) }
    {
        LogonMessage {
            comp_id: self.sender.name.as_text(),
            password: self.sender.password.as_text(),
            new_password: self.new_password.as_text(),
            version: Version::One,
        }
    }
}

/// A Logout that gives no reason.
#[derive(Clone, Copy)]
pub struct Logout {
    reason: LogoutReason,
    ghost none: { said reason.bytes ≡ [] },
}

impl Logout {
    ghost use Rattle.session_messages.specs.Session.{logout_contents};
    ghost use Rattle.bench_words.specs.Sessions.{logout_asked};

    /// A Logout without a reason.
    pub fn new() -> Logout {
        Logout {
            reason: FixedText::empty(),
        }
    }

    /// The message, which lends the text.
    pub fn message(&self) -> LogoutMessage<'_>
        ensures { logout_contents result ≡ logout_asked }
    {
        LogoutMessage {
            reason: self.reason.as_text(),
        }
    }
}
