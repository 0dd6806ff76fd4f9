// Folding the reports of a partition in turn.
ghost use Rattle.reports.specs.Known.{known};
ghost use Rattle.queue.specs.Queues.{elements};
ghost use Rattle.follower.specs.Folding.{reached, caught_one, caught_at, caught_up, FoldsTo};

use crate::heard::NumberedReport;
use crate::number::Number;
use codes::session::Partition;
use queue::Queue;
use reports::standings::{FoldRefusal, Standings};

fn fold_one(
    standings: &mut Standings,
    partition: Partition,
    place: Number,
    report: NumberedReport,
) -> Result<Number, FoldRefusal>
    ensures { FoldsTo
        (caught_one partition (reached (known standings.old) place) report)
        result (known standings.new) }
{
    let number = report.number();
    if place.reaches(&number) {
        return Ok(place);
    }
    standings.fold(partition, report.told)?;
    Ok(number)
}

fn fold_at(
    standings: &mut Standings,
    partition: Partition,
    place: Number,
    report: Option<NumberedReport>,
) -> Result<Number, FoldRefusal>
    ensures { FoldsTo
        (caught_at partition (reached (known standings.old) place) report)
        result (known standings.new) }
{
    match report {
        Some(report) => fold_one(standings, partition, place, report),
        None => Ok(place),
    }
}

// Folds what a queue has, the oldest first, up to the first report that is refused.
#[tactic(auto, using(crate::proofs::Folds::begins, crate::proofs::Folds::ends))]
pub(crate) fn fold_all(
    standings: &mut Standings,
    partition: Partition,
    mut place: Number,
    held: &Queue<'_, NumberedReport>,
) -> Result<Number, FoldRefusal>
    ensures { FoldsTo
        (caught_up partition (reached (known standings.old) place) (elements held.now))
        result (known standings.new) }
{
    for i in 0..held.len() {
        place = fold_at(standings, partition, place, held.get(i))?;
    }
    Ok(place)
}
