// That a stream is cut one way however it comes, proved of the definitions that a splitter's contracts cite.
ghost use Rattle.wire.specs.Streams.{OneCut};

/// Gives nothing: its contract is that whatever chunks a stream comes in, the same messages are cut out of it and the
/// same is left, and that these are the stream again.
pub fn streams_are_cut_once()
    ensures { OneCut }
{}
