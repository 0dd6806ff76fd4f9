// The messages of one channel of a line that a script plays: those that have come, and those that are under way.
ghost use Rattle.std.specs.Prelude.{◌≡◌, ◌+◌, ◌-◌, ◌≤◌, [], ◌∷◌, ◌++◌, drop, length, take, if◌then◌else◌, nat_lt, slice_get, OnOk, OnErr};
ghost use Rattle.bench_account.specs.Lanes.{again, now_of, texts};

use std::alloc::{AllocError, Global};

/// The messages of a channel in the order in which they were sent: first those that have come, behind them those that are
/// under way.
#[derive(Drop)]
pub struct Lane {
    messages: Vec<Vec<u8>>,
    came: usize,
    ghost within: { came ≤ length messages.items },
}

impl Lane {
    /// Nothing was sent.
    pub fn new(heap: Global) -> Lane
        ensures none { texts result.messages.items ≡ [] }
        ensures came { result.came ≡ 0 }
    {
        Lane {
            messages: Vec::new(heap),
            came: 0,
        }
    }

    /// One more message is under way, behind the others.
    #[tactic(auto, using(std::proofs::lemmas::List::map_push))]
    pub fn send(&mut self, heap: Global, message: &[u8]) -> Result<(), AllocError>
        ensures ok { OnOk result (texts self.new.messages.items ≡ texts self.old.messages.items ++ message.now ∷ []) }
        ensures came { self.new.came ≡ self.old.came }
        ensures err { OnErr result (texts self.new.messages.items ≡ texts self.old.messages.items) }
    {
        let message = Vec::from_slice(heap, message)?;
        self.messages.push(message)?;
        Ok(())
    }

    /// What is under way is gone.
    #[tactic(auto, using(crate::proofs::Lanes::cut_short))]
    pub fn cut(&mut self)
        ensures sent { texts self.new.messages.items ≡ take self.old.came (texts self.old.messages.items) }
        ensures came { self.new.came ≡ self.old.came }
    {
        self.messages.truncate(self.came);
    }

    /// The next message comes. Says whether there is one.
    pub fn come(&mut self) -> bool
        ensures next { result ≡ nat_lt self.old.came (length (texts self.old.messages.items)) }
        ensures came { self.new.came ≡ (if result then self.old.came + 1 else self.old.came) }
        ensures sent { texts self.new.messages.items ≡ texts self.old.messages.items }
    {
        let next = self.came < self.messages.len();
        if next {
            self.came += 1;
        }
        next
    }

    /// The messages that are under way, in their order.
    pub fn under_way(&self) -> &[Vec<u8>]
        ensures { result.now ≡ drop self.now.came self.now.messages.items }
    {
        &self.messages[self.came..]
    }

    /// The message that was sent last, whether or not it has come.
    pub fn newest(&self) -> Option<&[u8]>
        ensures { now_of result ≡ slice_get (texts self.now.messages.items) (length (texts self.now.messages.items) - 1) }
    {
        match self.messages.last() {
            Some(message) => Some(message.as_slice()),
            None => None,
        }
    }

    /// A message that has come: 1 is the last of them, 2 the one before it.
    pub fn again(&self, back: usize) -> Option<&[u8]>
        ensures { now_of result ≡ again (texts self.now.messages.items) self.now.came back }
    {
        if back == 0 || self.came < back {
            return None;
        }
        match self.messages.get(self.came - back) {
            Some(message) => Some(message.as_slice()),
            None => None,
        }
    }
}
