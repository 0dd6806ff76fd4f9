// A call on a gateway, made and kept with what came back.
ghost use Rattle.std.specs.Prelude.{◌≡◌, IfOk, OnErr};
ghost use Rattle.gateway_runs.specs.Runs.{Does, Tells, call_of};

use crate::call::{Call, Done, Reply};
use gateway::gateway::Gateway;
use matching::matcher::Matcher;
use std::alloc::{AllocError, Global};
use store::Store;

/// Makes one call, and says what came back. The matcher was asked what the call's acts ask, and nothing else. Where
/// memory for what came back is short nothing is called.
pub fn make<M: Matcher, S: Store>(
    alloc: Global,
    gateway: &mut Gateway<M, S>,
    call: Call,
) -> Result<Done, AllocError>
    ensures call { IfOk result (λ d. call_of d ≡ call) }
    ensures does { IfOk result (λ d. Does M.Did gateway.old d gateway.new) }
    ensures told { IfOk result (λ d. Tells gateway.old.state d) }
    ensures error { OnErr result (gateway.new ≡ gateway.old) }
{
    Ok(match call {
        Call::RealTime(line, message, time, before) => {
            let mut after = Vec::from_slice(alloc, &before)?;
            let answer = gateway.real_time_message(line, &message, time, &mut after);
            let reply = Reply {
                answer,
                before,
                after,
            };
            Done::RealTime(line, message, time, reply)
        }
        Call::Recovery(line, message, time, before) => {
            let mut after = Vec::from_slice(alloc, &before)?;
            let answer = gateway.recovery_message(line, &message, time, &mut after);
            let reply = Reply {
                answer,
                before,
                after,
            };
            Done::Recovery(line, message, time, reply)
        }
        Call::Step(time) => Done::Step(time, gateway.step(time)),
        Call::CancelTrade(trade, time) => {
            Done::CancelTrade(trade, time, gateway.cancel_trade(trade, time))
        }
        Call::LineLost(line, time) => Done::LineLost(line, time, gateway.line_lost(line, time)),
        Call::Send(line, before) => {
            let mut after = Vec::from_slice(alloc, &before)?;
            let answer = gateway.send(line, &mut after);
            let reply = Reply {
                answer,
                before,
                after,
            };
            Done::Send(line, reply)
        }
        Call::SendRecovered(line, before) => {
            let mut after = Vec::from_slice(alloc, &before)?;
            let answer = gateway.send_recovered(line, &mut after);
            let reply = Reply {
                answer,
                before,
                after,
            };
            Done::SendRecovered(line, reply)
        }
    })
}
