// What is handed out over many calls, proved of the definitions that the contracts cite.
ghost use Rattle.sessions.specs.Laws.{DownloadsWhole, MarksLoseNothing, SendsEach};

/// A download hands out the owner's reports up to its target, each once and in order, at most 64, and says at its end
/// whether those were all.
pub fn downloads_are_whole()
    ensures { DownloadsWhole }
{}

/// What is sent is the same as if no mark moved but that of a report that is sent.
pub fn marks_lose_nothing()
    ensures { MarksLoseNothing }
{}

/// In each partition the owner's reports above the mark are sent in order, none skipped and none twice.
pub fn sends_are_each()
    ensures { SendsEach }
{}
