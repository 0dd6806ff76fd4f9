// What may be asked of both ends. A question changes nothing, so it may stand anywhere among the calls.
ghost use Rattle.std.specs.Prelude.{◌≡◌, ℕ, IfOk};
ghost use Rattle.gateway.specs.State.{State};
ghost use Rattle.follower.specs.Following.{Following};

use follower::state::Follower;
use gateway::gateway::Gateway;
use matching::matcher::Matcher;
use std::alloc::{AllocError, Global};
use store::Store;

/// A question, whose answer is a function of what both ends show.
pub trait Question<A: Copy>: Drop {
    /// The answer, by the gateway's state, the free places of its store, and the follower.
    ghost answer: { Self → State → ℕ → Following → A };

    /// Answers it. Its one error is want of memory.
    fn ask<M: Matcher, S: Store>(
        &self,
        alloc: Global,
        gateway: &Gateway<M, S>,
        follower: &Follower,
    ) -> Result<A, AllocError>
        ensures { IfOk result (λ a. a ≡ answer self.now gateway.now.state gateway.now.free follower.now) };
}
