// What a mass cancel would take, asked of both ends and shown.
ghost use Rattle.std.specs.Prelude.{◌≡◌};
ghost use Rattle.bench_play.specs.Seeing.{fault_shown, preview_shown, taken_shown};

use crate::day::Day;
use crate::tables::{Look, Shown};
use bench_account::answer::Answer;
use bench_account::listing::{Preview, Taken};
use gateway::preview::{Going, PreviewFault};
use partitions::per_partition::PerPartition;
use std::io;

fn taken(going: Going) -> Taken
    ensures { result ≡ taken_shown going }
{
    Taken {
        orders: going.orders,
        shares: going.shares,
    }
}

fn preview_shown(going: PerPartition<Going>) -> Preview
    ensures { result ≡ preview_shown going }
{
    Preview {
        one: taken(going.one),
        two: taken(going.two),
        three: taken(going.three),
    }
}

// Why nothing would go, as a call is refused.
fn fault_shown(fault: PreviewFault) -> Answer<'static>
    ensures { result ≡ fault_shown fault }
{
    match fault.offset() {
        Some(offset) => Answer::RefusedAt(fault.number(), offset),
        None => Answer::Refused(fault.number()),
    }
}

/// What would go if these bytes were given on a line as a mass cancel. It is no call, and is not counted.
pub fn preview<R: Print>(rt: &R, day: &mut Day, line: usize, bytes: Vec<u8>) -> io::Result<()> {
    match day.ask(Look::Preview(line, bytes))? {
        Shown::Preview(Ok(going)) => rt.println(preview_shown(going)),
        Shown::Preview(Err(fault)) => rt.println(fault_shown(fault)),
        _ => Ok(()),
    }
}
