// Why a gateway does not do what a line asks, each reason with its number.
#![tactic(auto)]

ghost use Rattle.std.specs.Prelude.{◌≡◌, ◌==◌, find};
ghost use Rattle.refusals.specs.Numbers.{logon_number, turned_number, request_number, refusal_number, refusal_of};

/// Why a Logon is refused; a Logon Reply says so.
#[derive(Clone, Copy, Debug, PartialEq)]
pub enum LogonRefusal {
    /// CompID or password are not the line's, or a new password is asked for.
    BadCredentials = 11,
    /// The channel is logged on already.
    AlreadyOn = 12,
    RecoveryBeforeRealTime = 13,
}

/// Why a request for orders is turned down. It then has no report, and the answer is a Reject.
#[derive(Clone, Copy, Debug, PartialEq)]
pub enum Turned {
    /// No instrument has such a symbol, or none such a segment.
    UnknownInstrument = 20,
    /// Too few places are free for its reports.
    NoPlace = 29,
}

/// Why a Missed Message Request is refused; the answer is a Reject.
#[derive(Clone, Copy, Debug, PartialEq)]
pub enum RequestRefusal {
    DownloadRuns = 30,
}

/// Why a request for orders is refused in a report.
#[derive(Clone, Copy, Debug, PartialEq)]
pub enum Refusal {
    BookNotServed = 21,
    BadTerms = 22,
    OrdersFull = 23,
    MatcherFull = 24,
    /// The CompID has no such order, or the request's symbol, side or book is not the order's.
    NoSuchOrder = 25,
    NotOpen = 26,
    TimeInForceDiffers = 28,
}

const REFUSALS: [Refusal; 7] = [
    Refusal::BookNotServed,
    Refusal::BadTerms,
    Refusal::OrdersFull,
    Refusal::MatcherFull,
    Refusal::NoSuchOrder,
    Refusal::NotOpen,
    Refusal::TimeInForceDiffers,
];

fn numbered(refusals: &[Refusal], number: u32) -> Option<Refusal>
    ensures { result ≡ find (λ r. refusal_number r == number) refusals.now }
{
    refusals
        .iter()
        .copied()
        .find(|refusal| u32::from(refusal.number()) == number)
}

impl LogonRefusal {
    /// The number of the reason: 11 to 13.
    pub fn number(self) -> u8
        ensures { result ≡ logon_number self }
    {
        self as u8
    }
}

impl Turned {
    /// The number of the reason: 20 or 29.
    pub fn number(self) -> u8
        ensures { result ≡ turned_number self }
    {
        self as u8
    }
}

impl RequestRefusal {
    /// The number of the reason: 30.
    pub fn number(self) -> u8
        ensures { result ≡ request_number self }
    {
        self as u8
    }
}

impl Refusal {
    /// The number of the reason: 21 to 26 or 28.
    pub fn number(self) -> u8
        ensures { result ≡ refusal_number self }
    {
        self as u8
    }

    /// The refusal of a number; none where the number is no refusal's.
    pub fn of(number: &i32) -> Option<Refusal>
        ensures { result ≡ refusal_of number.now }
    {
        let number = u32::try_from(*number).ok()?;
        numbered(&REFUSALS, number)
    }
}
