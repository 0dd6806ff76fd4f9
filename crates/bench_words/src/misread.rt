// What of a script's line is not understood.
ghost use Rattle.std.specs.Prelude.{◌≡◌, Some};
ghost use Rattle.bench_words.specs.Sentences.{sentence_of};

use std::fmt;

/// What of a line is not understood.
#[derive(Clone, Copy, Debug, PartialEq)]
pub enum Misread {
    /// The line is no text.
    Text,
    /// No command has this name.
    Name,
    /// The command has fewer or more words.
    Count,
    Line,
    Time,
    Bytes,
    Number,
    YesOrNo,
    Side,
    Price,
    Quantity,
    Matcher,
    Tape,
    Store,
    Scope,
    Style,
    Delivery,
    Symbol,
    Segment,
    ClientId,
    /// What the line asks for needs a gateway.
    NotStarted,
    /// The gateway has all its configuration.
    Started,
    /// What the line asks for needs a follower.
    NoFollower,
}

impl Misread {
    /// The sentence that a person reads.
    pub fn text(self) -> &'static str
        ensures { result.now ≡ sentence_of self }
    {
        match self {
            Misread::Text => "not understood: the line is no text",
            Misread::Name => "not understood: no command has this name",
            Misread::Count => "not understood: the command has fewer or more words",
            Misread::Line => "not understood: the line is no whole number",
            Misread::Time => "not understood: the time is not SECONDS.MICROSECONDS",
            Misread::Bytes => "not understood: the bytes are not pairs of hex digits",
            Misread::Number => "not understood: a number is not whole, or is too large",
            Misread::YesOrNo => "not understood: neither yes nor no",
            Misread::Side => "not understood: the side is neither buy nor sell",
            Misread::Price =>
                "not understood: the price is neither market nor a decimal number of up to 8 places",
            Misread::Quantity => "not understood: the quantity is not whole, or is too large",
            Misread::Matcher => "not understood: the matcher is neither lit nor tape",
            Misread::Store =>
                "not understood: the store is neither records nor wire, with one number",
            Misread::Style => "not understood: messages are shown as hex or as text",
            Misread::Delivery =>
                "not understood: nothing is delivered but live and recovered messages",
            Misread::Tape => "not understood: a line of the tape is not ORDER,QTY,PRICE",
            Misread::Scope =>
                "not understood: what is cancelled is none of own, firm, instrument and segment",
            Misread::Symbol =>
                "not understood: the symbol has more than 6 characters, or others than printable ones",
            Misread::Segment =>
                "not understood: the segment has more than 4 characters, or others than printable ones",
            Misread::ClientId =>
                "not understood: the client order id has more than 20 characters, or others than printable ones",
            Misread::NotStarted => "not understood: the gateway is not started",
            Misread::Started => "not understood: the gateway is started already",
            Misread::NoFollower => "not understood: no line is followed",
        }
    }
}

impl fmt::Display for Misread {
    ghost output = { λ why. Some (sentence_of why) };

    fn fmt<W: fmt::Write>(&self, f: &mut fmt::Formatter<W>) -> fmt::Result {
        f.write_str(self.text())
    }
}
