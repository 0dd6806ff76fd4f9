// To whom changes are told, proved of the definitions that the contracts cite.
ghost use Rattle.venue.specs.Laws.{ChangesTellOwners, EntriesTellOwners};

/// Of whatever happens to an order its owner is told, and nobody else; what was told before stays.
pub fn owners_are_told()
    ensures changes { ChangesTellOwners }
    ensures entries { EntriesTellOwners }
{}
