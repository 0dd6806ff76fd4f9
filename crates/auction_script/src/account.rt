// What a script's calls came to.
ghost use Rattle.std.specs.Prelude.{◌≡◌};
ghost use Rattle.auction_script.specs.Accounts.{after_call, after_event};

use matching::event::Event;
use matching::matcher::Refusal;

/// What a script's calls and their events came to. A count stays at the largest number that it holds.
#[derive(Clone, Copy, Debug, PartialEq)]
pub struct Account {
    pub accepted: u64,
    pub refused: u64,
    pub trades: u64,
    /// The quantity of all trades, in shares.
    pub traded: u64,
    pub expired: u64,
}

impl Account {
    /// An account of nothing.
    pub fn new() -> Account
        ensures { result ≡ record { accepted = 0; refused = 0; trades = 0; traded = 0; expired = 0 } }
    {
        Account {
            accepted: 0,
            refused: 0,
            trades: 0,
            traded: 0,
            expired: 0,
        }
    }

    /// One more call, accepted or refused.
    pub fn call(&mut self, answer: Result<(), Refusal>)
        ensures { self.new ≡ after_call self.old answer }
    {
        match answer {
            Ok(()) => self.accepted = self.accepted.saturating_add(1),
            Err(_) => self.refused = self.refused.saturating_add(1),
        }
    }

    /// One more event.
    pub fn event(&mut self, event: Event)
        ensures { self.new ≡ after_event self.old event }
    {
        match event {
            Event::Nothing => {}
            Event::Expired(_) => self.expired = self.expired.saturating_add(1),
            Event::Trade { quantity, .. } => {
                self.trades = self.trades.saturating_add(1);
                self.traded = self.traded.saturating_add(u64::from(quantity));
            }
        }
    }
}
