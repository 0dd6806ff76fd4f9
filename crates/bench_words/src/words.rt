// Single words of a script: what each says, or that it is not understood. A whole number is decimal digits, perhaps
// behind a `+`, and, where it may be below 0, behind a `-`.
ghost use Rattle.std.specs.Prelude.{◌≡◌};
ghost use Rattle.bench_words.specs.Words.{app_of, line_of, number_of, part_of, price_of, pricing_of, shares_of, side_of, shares_at, signed_of, small_of, time_of, time_said, tape_line_of, whole_of, yes_of};

use crate::misread::Misread;
use crate::prices::hundred_millionths;
use codes::order::Side;
use matching::tape::Line;
use terms::pricing::Pricing;
use texts::values::{Price, Time};

#[tactic(auto, using(crate::proofs::Numerals::read_whole))]
fn whole(word: &str) -> Option<u64>
    ensures { result ≡ whole_of 64 word.now }
{
    word.parse().ok()
}

#[tactic(auto, using(crate::proofs::Numerals::read_whole))]
fn small(word: &str) -> Option<u32>
    ensures { result ≡ whole_of 32 word.now }
{
    word.parse().ok()
}

#[tactic(auto, using(crate::proofs::Numerals::read_whole))]
fn byte(word: &str) -> Option<u8>
    ensures { result ≡ whole_of 8 word.now }
{
    word.parse().ok()
}

#[tactic(auto, using(crate::proofs::Numerals::read_signed_32))]
fn signed_small(word: &str) -> Option<i32>
    ensures { result ≡ signed_of 31 word.now }
{
    word.parse().ok()
}

/// A line, from 0. What is no whole number of 64 bits is not understood ([`Misread::Line`]).
pub fn line(word: &str) -> Result<usize, Misread>
    ensures { result ≡ line_of word.now }
{
    match whole(word) {
        Some(line) => Ok(line as usize),
        None => Err(Misread::Line),
    }
}

/// A number. What is no whole number of 64 bits is not understood ([`Misread::Number`]).
pub fn number(word: &str) -> Result<u64, Misread>
    ensures { result ≡ number_of word.now }
{
    match whole(word) {
        Some(number) => Ok(number),
        None => Err(Misread::Number),
    }
}

/// A number of things, as `number` reads it.
pub fn count(word: &str) -> Result<usize, Misread>
    ensures { result ≡ number_of word.now }
{
    match whole(word) {
        Some(count) => Ok(count as usize),
        None => Err(Misread::Number),
    }
}

/// A number. What is no whole number of 32 bits is not understood ([`Misread::Number`]).
pub fn small_number(word: &str) -> Result<u32, Misread>
    ensures { result ≡ small_of word.now }
{
    match small(word) {
        Some(number) => Ok(number),
        None => Err(Misread::Number),
    }
}

/// A partition, of which there may be none of this number. What is no whole number of 8 bits is not understood
/// ([`Misread::Number`]).
pub fn partition(word: &str) -> Result<u8, Misread>
    ensures { result ≡ part_of word.now }
{
    match byte(word) {
        Some(partition) => Ok(partition),
        None => Err(Misread::Number),
    }
}

#[tactic(auto, using(crate::proofs::Numerals::read_signed_8))]
fn signed_byte(word: &str) -> Option<i8>
    ensures { result ≡ signed_of 7 word.now }
{
    word.parse().ok()
}

/// A partition as a request names it, from -128 to 127. What is none of these is not understood ([`Misread::Number`]).
pub fn app_id(word: &str) -> Result<i8, Misread>
    ensures { result ≡ app_of word.now }
{
    match signed_byte(word) {
        Some(partition) => Ok(partition),
        None => Err(Misread::Number),
    }
}

/// A quantity in shares, which may be below 0. What is no whole number of a signed 32 bits is not understood
/// ([`Misread::Quantity`]).
pub fn shares(word: &str) -> Result<i32, Misread>
    ensures { result ≡ shares_of word.now }
{
    match signed_small(word) {
        Some(shares) => Ok(shares),
        None => Err(Misread::Quantity),
    }
}

/// A price: a decimal number with up to eight places. What has more, or another form, or does not fit 64 bits of
/// hundred-millionths, is not understood ([`Misread::Price`]).
pub fn price(word: &str) -> Result<Price, Misread>
    ensures { result ≡ price_of word.now }
{
    match hundred_millionths(word) {
        Some(raw) => Ok(Price { raw }),
        None => Err(Misread::Price),
    }
}

/// `market`, or a limit, as `price` reads it.
pub fn pricing(word: &str) -> Result<Pricing, Misread>
    ensures { result ≡ pricing_of word.now }
{
    if word == "market" {
        return Ok(Pricing::Market);
    }
    Ok(Pricing::Limit(price(word)?))
}

/// `yes` or `no`. Any other word is not understood ([`Misread::YesOrNo`]).
pub fn yes_or_no(word: &str) -> Result<bool, Misread>
    ensures { result ≡ yes_of word.now }
{
    match word {
        "yes" => Ok(true),
        "no" => Ok(false),
        _ => Err(Misread::YesOrNo),
    }
}

/// `buy` or `sell`. Any other word is not understood ([`Misread::Side`]).
pub fn side(word: &str) -> Result<Side, Misread>
    ensures { result ≡ side_of word.now }
{
    match word {
        "buy" => Ok(Side::Buy),
        "sell" => Ok(Side::Sell),
        _ => Err(Misread::Side),
    }
}

fn parts_of_time(word: &str) -> Option<Time>
    ensures { result ≡ time_said word.now }
{
    let (seconds, microseconds) = word.split_once('.')?;
    let seconds = small(seconds)?;
    let microseconds = small(microseconds)?;
    Some(Time {
        seconds,
        microseconds,
    })
}

/// A time: seconds and microseconds, two whole numbers of 32 bits round a point. Any other word is not understood
/// ([`Misread::Time`]).
pub fn time(word: &str) -> Result<Time, Misread>
    ensures { result ≡ time_of word.now }
{
    match parts_of_time(word) {
        Some(time) => Ok(time),
        None => Err(Misread::Time),
    }
}

// A quantity and a price.
fn quantity_and_price(word: &str) -> Option<(u32, Price)>
    ensures { result ≡ shares_at word.now }
{
    let (quantity, limit) = word.split_once(',')?;
    match (small(quantity), price(limit)) {
        (Some(quantity), Ok(price)) => Some((quantity, price)),
        _ => None,
    }
}

/// One trade of a tape: the order's number, the quantity and the price, with commas between; none where the word has
/// another form. The price is one as `price` reads it.
pub fn tape_line(word: &str) -> Option<Line>
    ensures { result ≡ tape_line_of word.now }
{
    let (number, rest) = word.split_once(',')?;
    let number = whole(number)?;
    let (quantity, price) = quantity_and_price(rest)?;
    Some(Line {
        number,
        quantity,
        price,
    })
}
