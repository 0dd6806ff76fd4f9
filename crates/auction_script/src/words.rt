// Single words of a script: each is read whole, or named as the word that cannot be read.
ghost use Rattle.auction_script.specs.Words.{ForceRead, KindRead, NumberRead, PriceRead, SideRead};
ghost use Rattle.auction_script.specs.declared.command.Misread.TheVariants as misread;

use crate::command::Misread;
use codes::order::{OrderType, Side};
use terms::lifetime::Lifetime;
use texts::values::Price;

pub(crate) fn side(word: &str) -> Result<Side, Misread>
    ensures { SideRead word.now result }
{
    match word {
        "buy" => Ok(Side::Buy),
        "sell" => Ok(Side::Sell),
        _ => Err(Misread::Side),
    }
}

pub(crate) fn kind(word: &str) -> Result<OrderType, Misread>
    ensures { KindRead word.now result }
{
    match word {
        "market" => Ok(OrderType::Market),
        "limit" => Ok(OrderType::Limit),
        _ => Err(Misread::OrderType),
    }
}

pub(crate) fn force(word: &str) -> Result<Lifetime, Misread>
    ensures { ForceRead word.now result }
{
    match word {
        "day" => Ok(Lifetime::Day),
        "ioc" => Ok(Lifetime::ImmediateOrCancel),
        _ => Err(Misread::TimeInForce),
    }
}

pub(crate) fn number(word: &str) -> Result<u64, Misread>
    ensures { NumberRead 64 misread.Number word.now result }
{
    match word.parse() {
        Ok(number) => Ok(number),
        Err(_) => Err(Misread::Number),
    }
}

pub(crate) fn quantity(word: &str) -> Result<u32, Misread>
    ensures { NumberRead 32 misread.Quantity word.now result }
{
    match word.parse() {
        Ok(quantity) => Ok(quantity),
        Err(_) => Err(Misread::Quantity),
    }
}

pub(crate) fn instrument(word: &str) -> Result<u8, Misread>
    ensures { NumberRead 8 misread.Instrument word.now result }
{
    match word.parse() {
        Ok(instrument) => Ok(instrument),
        Err(_) => Err(Misread::Instrument),
    }
}

pub(crate) fn price(word: &str) -> Result<Price, Misread>
    ensures { PriceRead word.now result }
{
    match bench_words::words::price(word) {
        Ok(price) => Ok(price),
        Err(_) => Err(Misread::Price),
    }
}
