// What a line of a script asks for, read from its words.
ghost use Rattle.std.specs.Prelude.{◌≡◌};
ghost use Rattle.bench_words.specs.Commands.{alone_of, ask_of, at_time, behind_of, book_of, by_verb, bytes_said, cancel_of, cancel_trade_of, catch_of, command_of, comp_id_of, deliver_of, firm_of, instrument_of, is_call, is_dark, is_lit, is_pair, is_played, line_lost_of, live_of, lone_of, marked_of, mass_cancel_of, mass_said, matcher_of, message_of, midpoint_of, midpoint_said, missed_of, on_line, order_of, preview_mass_cancel_of, preview_of, real_time_of, recovered_of, recovery_of, repeat_of, replace_of, scope_of, show_of, store_of, style_of, tape_said, waits_of};

use crate::bytes::Bytes;
use crate::misread::Misread;
use crate::tape::Tape;
use crate::verb::Verb;
use crate::words;
use codes::order::{Book, Side};
use terms::lifetime::Lifetime;
use terms::pricing::Pricing;
use texts::values::{Price, Time};

/// What a gateway is started with, and its start.
#[derive(Clone, Copy)]
pub enum Setup<'a> {
    CompId {
        name: &'a str,
        password: &'a str,
        firm: u32,
        /// Whether marked orders end with the line.
        ends: bool,
    },
    Instrument {
        symbol: &'a str,
        segment: &'a str,
        partition: u8,
    },
    /// The lit book.
    Lit,
    /// The dark midpoint book.
    Dark,
    /// Both of them, as one.
    Pair,
    Tape(Tape<'a>),
    /// A store of records, with so many places.
    Records(usize),
    /// A store of wire bytes, so many.
    Wire(usize),
    /// A desk's follower of a line.
    Follow(usize),
    Start,
}

/// One of the gateway's seven calls.
#[derive(Clone, Copy)]
pub enum Call<'a> {
    RealTime(usize, Time, Bytes<'a>),
    Recovery(usize, Time, Bytes<'a>),
    Step(Time),
    CancelTrade(u64, Time),
    LineLost(usize, Time),
    Send(usize),
    SendRecovered(usize),
}

/// One of a follower's five calls.
#[derive(Clone, Copy)]
pub enum Desk<'a> {
    Up,
    Live(Bytes<'a>),
    /// The number of a partition, of which there may be none.
    Ask(u8),
    Recovered(Bytes<'a>),
    Lost,
}

/// What a person does with the line that is followed.
#[derive(Clone, Copy)]
pub enum Cable {
    /// The next live message under way comes.
    Deliver,
    /// The next message of the recovery channel under way comes.
    DeliverRecovered,
    /// A live message that has come comes once more: the last for 1, the one before it for 2.
    Repeat(usize),
    /// The message of the recovery channel that came last comes once more.
    RepeatRecovered,
    /// The line is cut, and what is under way is gone.
    Pull,
    /// Both channels are logged on.
    Reconnect,
    /// Every partition is downloaded until it is level.
    CatchUp,
}

/// What a mass cancel takes, of the CompID or of its firm.
#[derive(Clone, Copy)]
pub enum Scope<'a> {
    All,
    /// The orders of an instrument in a book.
    Instrument(&'a str, Book),
    Segment(&'a str),
}

/// A message that a person asks for, whose words may still not fit it.
#[derive(Clone, Copy)]
pub enum Request<'a> {
    Logon,
    /// A Logon on the recovery channel.
    Recover,
    Logout,
    Order {
        side: Side,
        symbol: &'a str,
        shares: i32,
        pricing: Pricing,
        client: &'a str,
        lifetime: Lifetime,
        /// Whether it ends with the line, where the CompID is so configured.
        marked: bool,
        book: Book,
    },
    Cancel {
        symbol: &'a str,
        side: Side,
        client: &'a str,
        original: &'a str,
        book: Book,
    },
    Replace {
        symbol: &'a str,
        side: Side,
        shares: i32,
        price: Price,
        client: &'a str,
        original: &'a str,
        /// The one that the order has, which no replacement changes.
        lifetime: Lifetime,
        book: Book,
    },
    MassCancel {
        client: &'a str,
        /// Whether it takes the orders of the firm, and not only those of the CompID.
        firm: bool,
        scope: Scope<'a>,
    },
    /// A download of the reports of a partition behind the last one seen.
    Missed {
        partition: i8,
        last: u32,
    },
}

/// How messages are shown.
#[derive(Clone, Copy)]
pub enum Style {
    Hex,
    Text,
}

/// What a line asks for.
#[derive(Clone, Copy)]
pub enum Command<'a> {
    Setup(Setup<'a>),
    Call(Call<'a>),
    Desk(Desk<'a>),
    Cable(Cable),
    /// A message on a line.
    Request(usize, Request<'a>),
    /// What would go if these bytes were given on a line as a mass cancel.
    Preview(usize, Bytes<'a>),
    /// The same of a message that a person asks for.
    PreviewRequest(usize, Request<'a>),
    /// Every event of the matcher, until there is none.
    Run,
    /// Everything that is to be sent on a line.
    Drain(usize),
    /// Everything of a line's download.
    Download(usize),
    Orders,
    /// What the follower knows.
    Follower,
    Show(Bytes<'a>),
    /// The midpoint of the instrument of a number, or that it has none.
    Midpoint(usize, Option<Price>),
    /// The time of the requests and events that follow.
    Clock(Time),
    Print(Style),
}

impl Command<'_> {
    /// Whether it calls the gateway or the follower.
    pub fn is_call(&self) -> bool
        ensures { result ≡ is_call self.now }
    {
        match self {
            Command::Call(_) | Command::Desk(_) | Command::Cable(_) | Command::Request(_, _) =>
                true,
            Command::Run | Command::Drain(_) | Command::Download(_) => true,
            Command::Midpoint(_, _) => true,
            _ => false,
        }
    }
}

// A command of one word.
fn alone<'a>(words: &[&str], command: Command<'a>) -> Result<Command<'a>, Misread>
    ensures { result ≡ alone_of words.now command.entry }
{
    if words.len() == 1 {
        Ok(command)
    } else {
        Err(Misread::Count)
    }
}

// The word behind the first, where there is no other.
fn lone<'a>(words: &[&'a str]) -> Result<&'a str, Misread>
    ensures { result ≡ lone_of words.now }
{
    match *words {
        [_, word] => Ok(word),
        _ => Err(Misread::Count),
    }
}

fn on_line(words: &[&str]) -> Result<usize, Misread>
    ensures { result ≡ on_line words.now }
{
    words::line(lone(words)?)
}

fn at_time(words: &[&str]) -> Result<Time, Misread>
    ensures { result ≡ at_time words.now }
{
    words::time(lone(words)?)
}

fn bytes<'a>(word: &'a str) -> Result<Bytes<'a>, Misread>
    ensures { result ≡ bytes_said word.entry }
{
    match Bytes::read(word) {
        Some(bytes) => Ok(bytes),
        None => Err(Misread::Bytes),
    }
}

fn show<'a>(words: &[&'a str]) -> Result<Command<'a>, Misread>
    ensures { result ≡ show_of words.now }
{
    Ok(Command::Show(bytes(lone(words)?)?))
}

fn live<'a>(words: &[&'a str]) -> Result<Command<'a>, Misread>
    ensures { result ≡ live_of words.now }
{
    Ok(Command::Desk(Desk::Live(bytes(lone(words)?)?)))
}

fn recovered<'a>(words: &[&'a str]) -> Result<Command<'a>, Misread>
    ensures { result ≡ recovered_of words.now }
{
    Ok(Command::Desk(Desk::Recovered(bytes(lone(words)?)?)))
}

fn ask<'a>(words: &[&'a str]) -> Result<Command<'a>, Misread>
    ensures { result ≡ ask_of words.now }
{
    Ok(Command::Desk(Desk::Ask(words::partition(lone(words)?)?)))
}

fn deliver<'a>(words: &[&'a str]) -> Result<Command<'a>, Misread>
    ensures { result ≡ deliver_of words.now }
{
    match *words {
        [_] => Ok(Command::Cable(Cable::Deliver)),
        [_, "recovered"] => Ok(Command::Cable(Cable::DeliverRecovered)),
        _ => Err(Misread::Delivery),
    }
}

fn repeat<'a>(words: &[&'a str]) -> Result<Command<'a>, Misread>
    ensures { result ≡ repeat_of words.now }
{
    match *words {
        [_] => Ok(Command::Cable(Cable::Repeat(1))),
        [_, "recovered"] => Ok(Command::Cable(Cable::RepeatRecovered)),
        [_, back] => Ok(Command::Cable(Cable::Repeat(words::count(back)?))),
        _ => Err(Misread::Count),
    }
}

fn catch_up<'a>(words: &[&'a str]) -> Result<Command<'a>, Misread>
    ensures { result ≡ catch_of words.now }
{
    match *words {
        [_, "up"] => Ok(Command::Cable(Cable::CatchUp)),
        _ => Err(Misread::Name),
    }
}

fn comp_id<'a>(words: &[&'a str]) -> Result<Command<'a>, Misread>
    ensures { result ≡ comp_id_of words.now }
{
    let [_, name, password, firm, ends] = *words else {
        return Err(Misread::Count);
    };
    let firm = words::small_number(firm)?;
    let ends = words::yes_or_no(ends)?;
    Ok(Command::Setup(Setup::CompId {
        name,
        password,
        firm,
        ends,
    }))
}

fn instrument<'a>(words: &[&'a str]) -> Result<Command<'a>, Misread>
    ensures { result ≡ instrument_of words.now }
{
    let [_, symbol, segment, partition] = *words else {
        return Err(Misread::Count);
    };
    let partition = words::partition(partition)?;
    Ok(Command::Setup(Setup::Instrument {
        symbol,
        segment,
        partition,
    }))
}

fn tape<'a>(words: &'a [&'a str]) -> Result<Command<'a>, Misread>
    ensures { result ≡ tape_said words.entry }
{
    match Tape::read(words) {
        Some(tape) => Ok(Command::Setup(Setup::Tape(tape))),
        None => Err(Misread::Tape),
    }
}

fn is_lit(words: &[&str]) -> bool
    ensures { result ≡ is_lit words.now }
{
    matches!(*words, [_, "lit"])
}

fn is_dark(words: &[&str]) -> bool
    ensures { result ≡ is_dark words.now }
{
    matches!(*words, [_, "dark"])
}

fn is_pair(words: &[&str]) -> bool
    ensures { result ≡ is_pair words.now }
{
    matches!(*words, [_, "pair"])
}

fn is_played(words: &[&str]) -> bool
    ensures { result ≡ is_played words.now }
{
    matches!(*words, [_, "tape", ..])
}

fn matcher<'a>(words: &'a [&'a str]) -> Result<Command<'a>, Misread>
    ensures { result ≡ matcher_of words.entry }
{
    if is_lit(words) {
        Ok(Command::Setup(Setup::Lit))
    } else if is_dark(words) {
        Ok(Command::Setup(Setup::Dark))
    } else if is_pair(words) {
        Ok(Command::Setup(Setup::Pair))
    } else if is_played(words) {
        tape(words)
    } else {
        Err(Misread::Matcher)
    }
}

fn store<'a>(words: &[&'a str]) -> Result<Command<'a>, Misread>
    ensures { result ≡ store_of words.now }
{
    match *words {
        [_, "records", places] => Ok(Command::Setup(Setup::Records(words::count(places)?))),
        [_, "wire", bytes] => Ok(Command::Setup(Setup::Wire(words::count(bytes)?))),
        _ => Err(Misread::Store),
    }
}

// A line, a time and the bytes of a message.
fn message<'a>(words: &[&'a str]) -> Result<(usize, Time, Bytes<'a>), Misread>
    ensures { result ≡ message_of words.now }
{
    let [_, line, time, message] = *words else {
        return Err(Misread::Count);
    };
    let line = words::line(line)?;
    let time = words::time(time)?;
    let message = bytes(message)?;
    Ok((line, time, message))
}

fn real_time<'a>(words: &[&'a str]) -> Result<Command<'a>, Misread>
    ensures { result ≡ real_time_of words.now }
{
    let (line, time, bytes) = message(words)?;
    Ok(Command::Call(Call::RealTime(line, time, bytes)))
}

fn recovery<'a>(words: &[&'a str]) -> Result<Command<'a>, Misread>
    ensures { result ≡ recovery_of words.now }
{
    let (line, time, bytes) = message(words)?;
    Ok(Command::Call(Call::Recovery(line, time, bytes)))
}

fn cancel_trade<'a>(words: &[&'a str]) -> Result<Command<'a>, Misread>
    ensures { result ≡ cancel_trade_of words.now }
{
    let [_, number, time] = *words else {
        return Err(Misread::Count);
    };
    let number = words::number(number)?;
    let time = words::time(time)?;
    Ok(Command::Call(Call::CancelTrade(number, time)))
}

fn line_lost<'a>(words: &[&'a str]) -> Result<Command<'a>, Misread>
    ensures { result ≡ line_lost_of words.now }
{
    let [_, line, time] = *words else {
        return Err(Misread::Count);
    };
    let line = words::line(line)?;
    let time = words::time(time)?;
    Ok(Command::Call(Call::LineLost(line, time)))
}

fn styled<'a>(words: &[&'a str]) -> Result<Command<'a>, Misread>
    ensures { result ≡ style_of words.now }
{
    match *words {
        [_, "hex"] => Ok(Command::Print(Style::Hex)),
        [_, "text"] => Ok(Command::Print(Style::Text)),
        _ => Err(Misread::Style),
    }
}

// The words behind all others of a request: none, or that it is for the dark book.
fn book(words: &[&str]) -> Result<Book, Misread>
    ensures { result ≡ book_of words.now }
{
    match *words {
        [] => Ok(Book::Integrated),
        ["dark"] => Ok(Book::DarkMidpoint),
        _ => Err(Misread::Count),
    }
}

// The words behind an order's lifetime: whether it is marked, and its book.
fn marked(words: &[&str]) -> Result<(bool, Book), Misread>
    ensures { result ≡ marked_of words.now }
{
    match *words {
        ["marked", ref rest @ ..] => Ok((true, book(rest)?)),
        _ => Ok((false, book(words)?)),
    }
}

// The words behind an order: how long it waits, whether it is marked, and its book.
fn behind(words: &[&str]) -> Result<(Lifetime, (bool, Book)), Misread>
    ensures { result ≡ behind_of words.now }
{
    match *words {
        ["ioc", ref rest @ ..] => Ok((Lifetime::ImmediateOrCancel, marked(rest)?)),
        _ => Ok((Lifetime::Day, marked(words)?)),
    }
}

// The words behind a replacement: how long the order waits, and its book.
fn waits(words: &[&str]) -> Result<(Lifetime, Book), Misread>
    ensures { result ≡ waits_of words.now }
{
    match *words {
        ["ioc", ref rest @ ..] => Ok((Lifetime::ImmediateOrCancel, book(rest)?)),
        _ => Ok((Lifetime::Day, book(words)?)),
    }
}

fn order<'a>(side: Side, words: &[&'a str]) -> Result<Command<'a>, Misread>
    ensures { result ≡ order_of side words.now }
{
    let [_, line, symbol, shares, price, client, ref rest @ ..] = *words else {
        return Err(Misread::Count);
    };
    let line = words::line(line)?;
    let shares = words::shares(shares)?;
    let pricing = words::pricing(price)?;
    let (lifetime, (marked, book)) = behind(rest)?;
    let order = Request::Order {
        side,
        symbol,
        shares,
        pricing,
        client,
        lifetime,
        marked,
        book,
    };
    Ok(Command::Request(line, order))
}

fn cancel<'a>(words: &[&'a str]) -> Result<Command<'a>, Misread>
    ensures { result ≡ cancel_of words.now }
{
    let [_, line, symbol, side, client, original, ref rest @ ..] = *words else {
        return Err(Misread::Count);
    };
    let book = book(rest)?;
    let line = words::line(line)?;
    let side = words::side(side)?;
    let cancel = Request::Cancel {
        symbol,
        side,
        client,
        original,
        book,
    };
    Ok(Command::Request(line, cancel))
}

fn replace<'a>(words: &[&'a str]) -> Result<Command<'a>, Misread>
    ensures { result ≡ replace_of words.now }
{
    let [
        _,
        line,
        symbol,
        side,
        shares,
        price,
        client,
        original,
        ref rest @ ..,
    ] = *words
    else {
        return Err(Misread::Count);
    };
    let (lifetime, book) = waits(rest)?;
    let line = words::line(line)?;
    let side = words::side(side)?;
    let shares = words::shares(shares)?;
    let price = words::price(price)?;
    let replace = Request::Replace {
        symbol,
        side,
        shares,
        price,
        client,
        original,
        lifetime,
        book,
    };
    Ok(Command::Request(line, replace))
}

fn is_firm(word: &str) -> Result<bool, Misread>
    ensures { result ≡ firm_of word.now }
{
    match word {
        "own" => Ok(false),
        "firm" => Ok(true),
        _ => Err(Misread::Scope),
    }
}

fn scoped<'a>(words: &[&'a str]) -> Result<Scope<'a>, Misread>
    ensures { result ≡ scope_of words.now }
{
    match *words {
        [] => Ok(Scope::All),
        ["instrument", symbol] => Ok(Scope::Instrument(symbol, Book::Integrated)),
        ["instrument", symbol, "dark"] => Ok(Scope::Instrument(symbol, Book::DarkMidpoint)),
        ["segment", segment] => Ok(Scope::Segment(segment)),
        _ => Err(Misread::Scope),
    }
}

// A mass cancel, and its line.
fn mass<'a>(words: &[&'a str]) -> Result<(usize, Request<'a>), Misread>
    ensures { result ≡ mass_said words.now }
{
    let [_, line, client, owner, ref rest @ ..] = *words else {
        return Err(Misread::Count);
    };
    let line = words::line(line)?;
    let firm = is_firm(owner)?;
    let scope = scoped(rest)?;
    let cancel = Request::MassCancel {
        client,
        firm,
        scope,
    };
    Ok((line, cancel))
}

fn mass_cancel<'a>(words: &[&'a str]) -> Result<Command<'a>, Misread>
    ensures { result ≡ mass_cancel_of words.now }
{
    let (line, cancel) = mass(words)?;
    Ok(Command::Request(line, cancel))
}

fn preview_mass_cancel<'a>(words: &[&'a str]) -> Result<Command<'a>, Misread>
    ensures { result ≡ preview_mass_cancel_of words.now }
{
    let (line, cancel) = mass(words)?;
    Ok(Command::PreviewRequest(line, cancel))
}

fn preview<'a>(words: &[&'a str]) -> Result<Command<'a>, Misread>
    ensures { result ≡ preview_of words.now }
{
    let [_, line, message] = *words else {
        return Err(Misread::Count);
    };
    let line = words::line(line)?;
    let message = bytes(message)?;
    Ok(Command::Preview(line, message))
}

fn missed<'a>(words: &[&'a str]) -> Result<Command<'a>, Misread>
    ensures { result ≡ missed_of words.now }
{
    let [_, line, partition, last] = *words else {
        return Err(Misread::Count);
    };
    let line = words::line(line)?;
    let partition = words::app_id(partition)?;
    let last = words::small_number(last)?;
    Ok(Command::Request(line, Request::Missed { partition, last }))
}

// A midpoint, or that there is none.
fn midpoint_price(word: &str) -> Result<Option<Price>, Misread>
    ensures { result ≡ midpoint_said word.now }
{
    if word == "none" {
        return Ok(None);
    }
    Ok(Some(words::price(word)?))
}

fn midpoint<'a>(words: &[&'a str]) -> Result<Command<'a>, Misread>
    ensures { result ≡ midpoint_of words.now }
{
    let [_, instrument, price] = *words else {
        return Err(Misread::Count);
    };
    let instrument = words::count(instrument)?;
    let price = midpoint_price(price)?;
    Ok(Command::Midpoint(instrument, price))
}

fn by_verb<'a>(verb: Verb, words: &'a [&'a str]) -> Result<Command<'a>, Misread>
    ensures { result ≡ by_verb verb words.entry }
{
    match verb {
        Verb::CompId => comp_id(words),
        Verb::Instrument => instrument(words),
        Verb::Matcher => matcher(words),
        Verb::Store => store(words),
        Verb::Start => alone(words, Command::Setup(Setup::Start)),
        Verb::RealTime => real_time(words),
        Verb::Recovery => recovery(words),
        Verb::Step => Ok(Command::Call(Call::Step(at_time(words)?))),
        Verb::CancelTrade => cancel_trade(words),
        Verb::LineLost => line_lost(words),
        Verb::Send => Ok(Command::Call(Call::Send(on_line(words)?))),
        Verb::SendRecovered => Ok(Command::Call(Call::SendRecovered(on_line(words)?))),
        Verb::Orders => alone(words, Command::Orders),
        Verb::Show => show(words),
        Verb::Time => Ok(Command::Clock(at_time(words)?)),
        Verb::Print => styled(words),
        Verb::Run => alone(words, Command::Run),
        Verb::Drain => Ok(Command::Drain(on_line(words)?)),
        Verb::Download => Ok(Command::Download(on_line(words)?)),
        Verb::Logon => Ok(Command::Request(on_line(words)?, Request::Logon)),
        Verb::Recover => Ok(Command::Request(on_line(words)?, Request::Recover)),
        Verb::Logout => Ok(Command::Request(on_line(words)?, Request::Logout)),
        Verb::Buy => order(Side::Buy, words),
        Verb::Sell => order(Side::Sell, words),
        Verb::Cancel => cancel(words),
        Verb::Replace => replace(words),
        Verb::MassCancel => mass_cancel(words),
        Verb::Preview => preview(words),
        Verb::PreviewMassCancel => preview_mass_cancel(words),
        Verb::Missed => missed(words),
        Verb::Follow => Ok(Command::Setup(Setup::Follow(on_line(words)?))),
        Verb::Up => alone(words, Command::Desk(Desk::Up)),
        Verb::Live => live(words),
        Verb::Ask => ask(words),
        Verb::Recovered => recovered(words),
        Verb::Lost => alone(words, Command::Desk(Desk::Lost)),
        Verb::Follower => alone(words, Command::Follower),
        Verb::Deliver => deliver(words),
        Verb::Repeat => repeat(words),
        Verb::Pull => alone(words, Command::Cable(Cable::Pull)),
        Verb::Reconnect => alone(words, Command::Cable(Cable::Reconnect)),
        Verb::Catch => catch_up(words),
        Verb::Midpoint => midpoint(words),
    }
}

/// What the words of a line ask for. Of several words that are not understood the first is told, as they are read: the
/// name, how many there are, and then one after the other.
pub fn read<'a>(words: &'a [&'a str]) -> Result<Command<'a>, Misread>
    ensures { result ≡ command_of words.entry }
{
    let [first, ..] = *words else {
        return Err(Misread::Name);
    };
    match Verb::named(first) {
        Some(verb) => by_verb(verb, words),
        None => Err(Misread::Name),
    }
}
