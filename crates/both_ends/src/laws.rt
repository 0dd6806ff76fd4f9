// What a desk asks of its follower, proved of the definitions that the calls' contracts cite.
ghost use Rattle.both_ends.specs.Asking.{Erases};
ghost use Rattle.both_ends.specs.Laws.{LevelByDownload, LevelOnceReached, StaysBehind, StaysLevel};
ghost use Rattle.both_ends.specs.Agreement.{DownloadsLevel};
ghost use Rattle.both_ends.specs.Connections.{AsTheRule};

use crate::question::Question;
use matching::matcher::Matcher;

/// Leaving the questions out of a list of steps changes nothing else: no other answer, no byte that is handed out, and
/// neither end.
pub fn questions_change_nothing<M: Matcher, Q: Question<A>, A: Copy>()
    ensures { Erases M.Did M.guided M.Learns Q.answer }
{}

/// A level partition stays level but for up and lost.
#[tactic(auto, using(crate::proofs::Levels::stays_level))]
pub fn levels_stay()
    ensures { StaysLevel }
{}

/// A partition goes to level only by the complete end of its download, given on the recovery channel and taken
/// while that download runs.
pub fn only_downloads_level()
    ensures { LevelByDownload }
{}

/// A partition goes from overrun to level only with its place at or above the highest number that passed.
pub fn overrun_until_reached()
    ensures { LevelOnceReached }
{}

/// A follower that is never given anything stays behind, whatever else happens at both ends.
#[tactic(auto, using(crate::proofs::Levels::stays_behind))]
pub fn nothing_given_is_behind()
    ensures { StaysBehind }
{}

/// After any log that the line allows: a partition is level once its download has come to the end that says complete; one
/// that is overrun, once its place has reached what passed.
pub fn downloads_make_level()
    ensures { DownloadsLevel }
{}

/// What keeps the rule of the line, as it is told of what left the gateway and what came, the line allows.
pub fn the_rule_is_allowed()
    ensures { AsTheRule }
{}
