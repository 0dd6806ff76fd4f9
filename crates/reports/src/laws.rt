// The laws of the fold and of the tally, proved of the definitions that the contracts cite.
ghost use Rattle.reports.specs.FoldLaws.{FoldLaws};
ghost use Rattle.reports.specs.Laws.{TallyLaws};

/// Gives nothing: its contract is that the laws of the tally hold.
pub fn tally_laws_hold()
    ensures { TallyLaws }
{}

/// Gives nothing: its contract is that the laws of the fold hold.
pub fn fold_laws_hold()
    ensures { FoldLaws }
{}
