// What is asked of both ends: their tables, an order and a partition at a time, and what a mass cancel would take.
ghost use Rattle.std.specs.Prelude.{◌≡◌};
ghost use Rattle.bench_play.specs.Tables.{answer, progress_of};

use bench_account::listing::Progress;
use both_ends::question::Question;
use codes::session::Partition;
use follower::side::State;
use follower::state::Follower;
use gateway::gateway::Gateway;
use gateway::preview::{Going, PreviewFault};
use matching::matcher::Matcher;
use orders::order::Order;
use partitions::per_partition::PerPartition;
use reports::standing::Standing;
use std::alloc::{AllocError, Global};
use store::Store;

/// What may be asked: an order by its number, a partition, and the bytes of a mass cancel on a line.
#[derive(Drop)]
pub enum Look {
    Order(u64),
    Partition(Partition),
    Preview(usize, Vec<u8>),
}

/// What both ends show: an order as the gateway has it and as the follower knows it; how far the follower is in a
/// partition, and what it has of its reports; what a mass cancel would take, or why it would be refused.
#[derive(Clone, Copy, Drop)]
pub enum Shown {
    Order(Option<Order>, Option<Standing>),
    Partition { place: u32, progress: Progress },
    Preview(Result<PerPartition<Going>, PreviewFault>),
}

fn progress_of(state: &State) -> Progress
    ensures { result ≡ progress_of state.now }
{
    match state {
        State::Level => Progress::Level,
        State::Behind(hold) => Progress::Behind(hold.len()),
        State::Overrun(passed) => Progress::Overrun(passed.get()),
    }
}

impl Question<Shown> for Look {
    ghost answer = { answer };

    fn ask<M: Matcher, S: Store>(
        &self,
        _alloc: Global,
        gateway: &Gateway<M, S>,
        follower: &Follower,
    ) -> Result<Shown, AllocError> {
        Ok(match self {
            Look::Order(number) => {
                Shown::Order(gateway.venue().order(*number), follower.standing(*number))
            }
            Look::Partition(partition) => Shown::Partition {
                place: follower.place(*partition),
                progress: progress_of(follower.state(*partition)),
            },
            Look::Preview(line, bytes) => Shown::Preview(gateway.preview(*line, bytes)),
        })
    }
}
