// What a venue asks of its gateway, proved of the definitions that the calls' contracts cite.
ghost use Rattle.gateway_runs.specs.Laws.{FirmsApart, LinesApart, RefusedStand, OnlyAppends, StayOwned};

/// A call on one line changes no other line's session.
pub fn lines_stay_apart()
    ensures { LinesApart }
{}

/// A refused call changes nothing.
#[tactic(auto, using(crate::proofs::Refused::refused_stand))]
pub fn refused_calls_stand()
    ensures { RefusedStand }
{}

/// Reports are only appended: the numbers of a partition are 1, 2, 3 and so on, and each stays with its report.
pub fn reports_are_only_appended()
    ensures { OnlyAppends }
{}

/// Each order's and each report's owner is a configured line.
pub fn owners_are_lines()
    ensures { StayOwned }
{}

/// A call on a line changes no order of another firm: only the matcher's events and a trade that is cancelled reach
/// across firms.
pub fn firms_stay_apart()
    ensures { FirmsApart }
{}
