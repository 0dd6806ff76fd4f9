// The calls that a script makes, each read from the words of a line.
ghost use Rattle.std.specs.Prelude.{◌≡◌, Some};
ghost use Rattle.auction_script.specs.Commands.{AmendRead, CancelRead, EnterRead, WordsRead};
ghost use Rattle.auction_script.specs.Texts.{misread_text};

use crate::words;
use codes::order::Book;
use matching::matcher::Ticket;
use std::fmt;
use terms::pricing::Pricing;
use texts::values::Price;

/// One call of a script.
#[derive(Clone, Copy, Debug, PartialEq)]
pub enum Command {
    /// Enter an order under a number.
    Enter(u64, Ticket),
    /// Cancel the order of a number.
    Cancel(u64),
    /// Give the order of a number another open quantity and price.
    Amend(u64, u32, Price),
    /// Take every event until there is none.
    Run,
    /// Show the book.
    Show,
}

/// What of a line cannot be read.
#[derive(Clone, Copy, Debug, PartialEq)]
pub enum Misread {
    /// The line is no text.
    Text,
    /// No call of this name has so many words.
    Call,
    Number,
    Instrument,
    Side,
    OrderType,
    TimeInForce,
    Price,
    Quantity,
}

impl Misread {
    /// The word that a person reads.
    pub fn text(self) -> &'static str
        ensures { result.now ≡ misread_text self }
    {
        match self {
            Misread::Text => "text",
            Misread::Call => "call",
            Misread::Number => "number",
            Misread::Instrument => "instrument",
            Misread::Side => "side",
            Misread::OrderType => "order type",
            Misread::TimeInForce => "force",
            Misread::Price => "price",
            Misread::Quantity => "quantity",
        }
    }
}

impl fmt::Display for Misread {
    ghost output = { λ word. Some (misread_text word) };

    fn fmt<W: fmt::Write>(&self, f: &mut fmt::Formatter<W>) -> fmt::Result {
        f.write_str(self.text())
    }
}

// The words after `enter`. Of several that cannot be read the first is answered.
fn enter(
    number: &str,
    instrument: &str,
    side: &str,
    kind: &str,
    force: &str,
    price: &str,
    quantity: &str,
) -> Result<Command, Misread>
    ensures { EnterRead number.now instrument.now side.now kind.now force.now price.now quantity.now result }
{
    let number = words::number(number)?;
    let instrument = words::instrument(instrument)?;
    let side = words::side(side)?;
    let kind = words::kind(kind)?;
    let lifetime = words::force(force)?;
    let price = words::price(price)?;
    let quantity = words::quantity(quantity)?;
    Ok(Command::Enter(
        number,
        Ticket {
            instrument,
            side,
            pricing: Pricing::new(kind, price),
            lifetime,
            quantity,
            book: Book::Integrated,
        },
    ))
}

// The words after `amend`. Of several that cannot be read the first is answered.
fn amend(number: &str, quantity: &str, price: &str) -> Result<Command, Misread>
    ensures { AmendRead number.now quantity.now price.now result }
{
    let number = words::number(number)?;
    let shares = words::quantity(quantity)?;
    let limit = words::price(price)?;
    Ok(Command::Amend(number, shares, limit))
}

// The word after `cancel`.
fn cancel(number: &str) -> Result<Command, Misread>
    ensures { CancelRead number.now result }
{
    Ok(Command::Cancel(words::number(number)?))
}

/// The call of a line's words, or the first word that cannot be read.
pub fn read(words: &[&str]) -> Result<Command, Misread>
    ensures { WordsRead words.now result }
{
    match *words {
        [
            "enter",
            number,
            instrument,
            side,
            kind,
            force,
            price,
            quantity,
        ] => { enter(number, instrument, side, kind, force, price, quantity) }
        ["cancel", number] => cancel(number),
        ["amend", number, quantity, price] => amend(number, quantity, price),
        ["run"] => Ok(Command::Run),
        ["book"] => Ok(Command::Show),
        _ => Err(Misread::Call),
    }
}
