// The laws of the changes, proved of the definitions that the contracts cite.
ghost use Rattle.changes.specs.Laws.{Conserves, Follows};

/// Whoever folds the reports of a change knows the order as it is after it, and is never refused.
pub fn follows_hold()
    ensures { Follows }
{}

/// After any list of changes of one order its figures are those of the quantity last accepted.
pub fn conserves_hold()
    ensures { Conserves }
{}
