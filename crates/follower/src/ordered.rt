// The known orders by rising number.
ghost use Rattle.std.specs.Prelude.{◌≡◌};
ghost use Rattle.reports.specs.Known.{known};
ghost use Rattle.follower.specs.Orders.{earlier, earlier_of, FirstFrom};

use reports::standings::{Known, Standings};

fn earlier(best: Option<Known>, next: Known, from: u64) -> Option<Known>
    ensures { result ≡ earlier from best next }
{
    match best {
        None if from <= next.number => Some(next),
        None => None,
        Some(best) if next.number < from => Some(best),
        Some(best) if next.number < best.number => Some(next),
        Some(best) => Some(best),
    }
}

fn earlier_of(best: Option<Known>, next: Option<Known>, from: u64) -> Option<Known>
    ensures { result ≡ earlier_of from best next }
{
    match next {
        None => best,
        Some(next) => earlier(best, next, from),
    }
}

// The known order of the lowest number from a given one on.
#[tactic(auto, using(crate::proofs::Firsts::begins, crate::proofs::Firsts::further, crate::proofs::Firsts::ends))]
pub(crate) fn first_from(standings: &Standings, from: u64) -> Option<Known>
    ensures { FirstFrom (known standings.now) from result }
{
    let mut best = None;
    for i in 0..standings.len() {
        best = earlier_of(best, standings.get(i), from);
    }
    best
}
