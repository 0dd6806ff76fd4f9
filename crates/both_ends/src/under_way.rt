// Messages that are under way on a channel.
ghost use Rattle.std.specs.Prelude.{◌≡◌, [], ◌∷◌, ◌++◌, false, Some, None, IfOk, if◌then◌else◌};
ghost use Rattle.std.specs.List.{list_any};
ghost use Rattle.std.specs.Str.{bytes_eq};
ghost use Rattle.both_ends.specs.Allowed.{behind, next_of};

use crate::replies::same;
use std::alloc::{AllocError, Global};
use std::collections::VecDeque;
use std::marker::Model;

/// The messages under way on a channel: in a contract the list of them, the oldest in front.
#[derive(Drop)]
pub(crate) struct UnderWay<'a> {
    messages: VecDeque<&'a [u8]>,
}

impl<'a> Model for UnderWay<'a> {
    ghost use Rattle.std.specs.Prelude.{ℕ, List, map};

    ghost Value = { List (List ℕ) };

    ghost view = { λ u. map (λ m. m.now) u.messages.items };
}

impl<'a> UnderWay<'a> {
    pub(crate) fn new(alloc: Global) -> UnderWay<'a>
        ensures { result ≡ [] }
    {
        UnderWay {
            messages: VecDeque::new(alloc),
        }
    }

    pub(crate) fn clear(&mut self)
        ensures { self.new ≡ [] }
    {
        self.messages.clear();
    }

    /// One message more, behind the others.
    pub(crate) fn push(&mut self, message: &'a [u8]) -> Result<(), AllocError>
        ensures { IfOk result (λ _. self.new ≡ self.old ++ message.now ∷ []) }
    {
        self.messages.push_back(message)?;
        Ok(())
    }

    /// One message more, in front of the others.
    pub(crate) fn push_front(&mut self, message: &'a [u8]) -> Result<(), AllocError>
        ensures { IfOk result (λ _. self.new ≡ message.now ∷ self.old) }
    {
        self.messages.push_front(message)?;
        Ok(())
    }

    /// What a call handed out, behind the others, if that is anything.
    pub(crate) fn hand_out(&mut self, bytes: &'a [u8]) -> Result<(), AllocError>
        ensures { IfOk result (λ _. self.new ≡ behind self.old bytes.now) }
    {
        if bytes.is_empty() {
            return Ok(());
        }
        self.push(bytes)
    }

    pub(crate) fn contains(&self, message: &[u8]) -> bool
        ensures { result ≡ list_any (bytes_eq message.now) self.now }
    {
        for other in &self.messages {
            if same(message, other) {
                return true;
            }
        }
        false
    }

    /// Takes the first message, if it is this one, and says whether it was.
    pub(crate) fn take(&mut self, message: &[u8]) -> bool
        ensures next { next_of message.now self.old ≡ (if result then Some self.new else None) }
        ensures kept { result ≡ false → self.new ≡ self.old }
    {
        let is_next = match self.messages.front() {
            Some(first) => same(first, message),
            None => false,
        };
        if is_next {
            let _ = self.messages.pop_front();
        }
        is_next
    }
}
