// A call on one of both ends, made and kept with what came back.
ghost use Rattle.std.specs.Prelude.{◌≡◌, IfOk, OnErr};
ghost use Rattle.both_ends.specs.Runs.{Does, Sided, Tells, call_of};
ghost use Rattle.follower.specs.Owing.{Tied};

use crate::call::{Asked, Call, Done};
use follower::pending::Pending;
use follower::state::Follower;
use gateway::gateway::Gateway;
use gateway_runs::run::make as make_venue;
use matching::matcher::Matcher;
use std::alloc::{AllocError, Global};
use store::Store;

// One call, what came back, and the token that is then owed. Where memory for what came back is short nothing is called.
pub(crate) fn make<M: Matcher, S: Store>(
    alloc: Global,
    gateway: &mut Gateway<M, S>,
    follower: &mut Follower,
    token: Pending,
    call: Call,
) -> (Result<Done, AllocError>, Pending)
    requires { Tied token follower.old }
    ensures call { IfOk result.0 (λ x. call_of x ≡ call) }
    ensures does { IfOk result.0 (λ x. Does gateway.old.state (record { follower = follower.old; token = token }) x
        gateway.new.state (record { follower = follower.new; token = result.1 })) }
    ensures sided { IfOk result.0 (λ x. Sided M.Did gateway.old x gateway.new) }
    ensures told { IfOk result.0 (λ x. Tells gateway.old.state (record { follower = follower.old; token = token }) x) }
    ensures tie { Tied result.1 follower.new }
    ensures gateway_stays { OnErr result.0 (gateway.new ≡ gateway.old) }
    ensures follower_stays { OnErr result.0 (follower.new ≡ follower.old) }
    ensures token_stays { OnErr result.0 (result.1 ≡ token) }
{
    match call {
        Call::Venue(call) => match make_venue(alloc, gateway, call) {
            Ok(done) => (Ok(Done::Venue(done)), token),
            Err(error) => (Err(error), token),
        },
        Call::Up => (Ok(Done::Up), follower.up(token)),
        Call::Lost => (Ok(Done::Lost), follower.lost(token)),
        Call::Live(message) => {
            let (answer, token) = follower.live(&message, token);
            (Ok(Done::Live(message, answer)), token)
        }
        Call::Recovered(message) => {
            let (answer, token) = follower.recovered(&message, token);
            (Ok(Done::Recovered(message, answer)), token)
        }
        Call::Ask(partition, before) => match Vec::from_slice(alloc, &before) {
            Ok(mut after) => {
                let (answer, token) = follower.ask(partition, &mut after, token);
                let asked = Asked {
                    answer,
                    before,
                    after,
                };
                (Ok(Done::Ask(partition, asked)), token)
            }
            Err(error) => (Err(error), token),
        },
    }
}
