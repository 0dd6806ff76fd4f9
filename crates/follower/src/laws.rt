// What a follower hears of what is written to it, and what it keeps, proved of the definitions that the contracts
// cite.
ghost use Rattle.follower.specs.Laws.{WrittenHeard, ReportsHeard};
ghost use Rattle.follower.specs.Quiet.{StaysQuiet};

/// In the bytes of a message a follower hears that message.
pub fn what_is_written_is_heard()
    ensures { WrittenHeard }
{}

/// In the bytes of a report's message a follower hears that report under its number.
pub fn reports_are_heard()
    ensures { ReportsHeard }
{}

/// A follower that is not up is behind in all partitions and holds nothing.
pub fn followers_stay_quiet()
    ensures { StaysQuiet }
{}
