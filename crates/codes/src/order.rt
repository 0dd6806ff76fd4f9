// The codes of an order's terms.
ghost use Rattle.std.specs.Prelude.{◌≡◌, Some};
ghost use Rattle.std.proofs.Common.{arith};
ghost use Rattle.codes.specs.Order as codes;
ghost use Rattle.codes.specs.declared.lists.Codes.TheVariants as lists;

use crate::code::Code;
use crate::value_of;
use std::fmt;

/// Side of an order.
#[derive(Clone, Copy, Debug, PartialEq, Eq)]
pub enum Side {
    Buy = 1,
    Sell = 2,
}

impl Code for Side {
    ghost list = { lists.Sides };

    ghost coded = { λ x. codes.side_code x };

    ghost sound = { record { every = λ x. Prim.grind arith; one = λ x y h. Prim.grind arith } };

    fn of(byte: u8) -> Option<Side> {
        value_of!(byte, Side::{Buy, Sell})
    }

    fn byte(&self) -> u8 {
        *self as u8
    }
}

impl Side {
    /// The word that a person types and reads.
    pub fn text(self) -> &'static str
        ensures { result.now ≡ codes.side_text self }
    {
        match self {
            Side::Buy => "buy",
            Side::Sell => "sell",
        }
    }
}

impl fmt::Display for Side {
    ghost output = { λ side. Some (codes.side_text side) };

    fn fmt<W: fmt::Write>(&self, f: &mut fmt::Formatter<W>) -> fmt::Result {
        f.write_str(self.text())
    }
}

/// Whether an order has a limit.
#[derive(Clone, Copy, Debug, PartialEq, Eq)]
pub enum OrderType {
    Market = 1,
    Limit = 2,
}

impl Code for OrderType {
    ghost list = { lists.OrderTypes };

    ghost coded = { λ x. codes.order_type_code x };

    ghost sound = { record { every = λ x. Prim.grind arith; one = λ x y h. Prim.grind arith } };

    fn of(byte: u8) -> Option<OrderType> {
        value_of!(byte, OrderType::{Market, Limit})
    }

    fn byte(&self) -> u8 {
        *self as u8
    }
}

/// How long an order stays.
#[derive(Clone, Copy, Debug, PartialEq, Eq)]
pub enum TimeInForce {
    Day = 0,
    GoodTillCancel = 1,
    ImmediateOrCancel = 3,
    FillOrKill = 4,
    GoodTillDate = 6,
    GoodTillTime = 8,
}

impl Code for TimeInForce {
    ghost list = { lists.TimesInForce };

    ghost coded = { λ x. codes.time_in_force_code x };

    ghost sound = { record { every = λ x. Prim.grind arith; one = λ x y h. Prim.grind arith } };

    fn of(byte: u8) -> Option<TimeInForce> {
        value_of!(byte, TimeInForce::{
            Day, GoodTillCancel, ImmediateOrCancel, FillOrKill, GoodTillDate, GoodTillTime,
        })
    }

    fn byte(&self) -> u8 {
        *self as u8
    }
}

/// Whose account clears a trade.
#[derive(Clone, Copy, Debug, PartialEq, Eq)]
pub enum ClearingAccount {
    Client = 1,
    House = 3,
}

impl Code for ClearingAccount {
    ghost list = { lists.ClearingAccounts };

    ghost coded = { λ x. codes.clearing_account_code x };

    ghost sound = { record { every = λ x. Prim.grind arith; one = λ x y h. Prim.grind arith } };

    fn of(byte: u8) -> Option<ClearingAccount> {
        value_of!(byte, ClearingAccount::{Client, House})
    }

    fn byte(&self) -> u8 {
        *self as u8
    }
}

/// In which capacity a firm enters an order.
#[derive(Clone, Copy, Debug, PartialEq, Eq)]
pub enum OrderCapacity {
    RisklessPrincipal = 1,
    Principal = 2,
    Agency = 3,
    CfdGiveUp = 4,
}

impl Code for OrderCapacity {
    ghost list = { lists.OrderCapacities };

    ghost coded = { λ x. codes.order_capacity_code x };

    ghost sound = { record { every = λ x. Prim.grind arith; one = λ x y h. Prim.grind arith } };

    fn of(byte: u8) -> Option<OrderCapacity> {
        value_of!(byte, OrderCapacity::{RisklessPrincipal, Principal, Agency, CfdGiveUp})
    }

    fn byte(&self) -> u8 {
        *self as u8
    }
}

/// Whether an order is marked to end with the line; if so, the CompID's configuration decides.
#[derive(Clone, Copy, Debug, PartialEq, Eq)]
pub enum AutoCancel {
    Keep = 0,
    AsConfigured = 1,
}

impl Code for AutoCancel {
    ghost list = { lists.AutoCancels };

    ghost coded = { λ x. codes.auto_cancel_code x };

    ghost sound = { record { every = λ x. Prim.grind arith; one = λ x y h. Prim.grind arith } };

    fn of(byte: u8) -> Option<AutoCancel> {
        value_of!(byte, AutoCancel::{Keep, AsConfigured})
    }

    fn byte(&self) -> u8 {
        *self as u8
    }
}

/// The one kind of request that a New Order makes.
#[derive(Clone, Copy, Debug, PartialEq, Eq)]
pub enum OrderSubType {
    Order = 0,
}

impl Code for OrderSubType {
    ghost list = { lists.OrderSubTypes };

    ghost coded = { λ x. codes.order_sub_type_code x };

    ghost sound = { record { every = λ x. Prim.grind arith; one = λ x y h. Prim.grind arith } };

    fn of(byte: u8) -> Option<OrderSubType> {
        value_of!(byte, OrderSubType::{Order})
    }

    fn byte(&self) -> u8 {
        *self as u8
    }
}

/// The book that an order is for.
#[derive(Clone, Copy, Debug, PartialEq, Eq)]
pub enum Book {
    DarkMidpoint = 0,
    Integrated = 1,
}

impl Code for Book {
    ghost list = { lists.Books };

    ghost coded = { λ x. codes.book_code x };

    ghost sound = { record { every = λ x. Prim.grind arith; one = λ x y h. Prim.grind arith } };

    fn of(byte: u8) -> Option<Book> {
        value_of!(byte, Book::{DarkMidpoint, Integrated})
    }

    fn byte(&self) -> u8 {
        *self as u8
    }
}

/// When an order of the dark book takes part.
#[derive(Clone, Copy, Debug, PartialEq, Eq)]
pub enum ExecInstruction {
    ContinuousAndPeriodic = 0,
    PeriodicOnly = 1,
    ContinuousOnly = 2,
}

impl Code for ExecInstruction {
    ghost list = { lists.ExecInstructions };

    ghost coded = { λ x. codes.exec_instruction_code x };

    ghost sound = { record { every = λ x. Prim.grind arith; one = λ x y h. Prim.grind arith } };

    fn of(byte: u8) -> Option<ExecInstruction> {
        value_of!(byte, ExecInstruction::{ContinuousAndPeriodic, PeriodicOnly, ContinuousOnly})
    }

    fn byte(&self) -> u8 {
        *self as u8
    }
}

/// Whether an order must rest, and how near the best price.
#[derive(Clone, Copy, Debug, PartialEq, Eq)]
pub enum PassiveOnly {
    NoConstraint = 0,
    SetOrJoinBest = 1,
    WithinOnePoint = 2,
    WithinTwoPoints = 3,
    RestOnEntry = 99,
    SetBest = 100,
}

impl Code for PassiveOnly {
    ghost list = { lists.PassiveOnlys };

    ghost coded = { λ x. codes.passive_only_code x };

    ghost sound = { record { every = λ x. Prim.grind arith; one = λ x y h. Prim.grind arith } };

    fn of(byte: u8) -> Option<PassiveOnly> {
        value_of!(byte, PassiveOnly::{
            NoConstraint, SetOrJoinBest, WithinOnePoint, WithinTwoPoints, RestOnEntry, SetBest,
        })
    }

    fn byte(&self) -> u8 {
        *self as u8
    }
}

/// Which orders a mass cancel takes.
#[derive(Clone, Copy, Debug, PartialEq, Eq)]
pub enum MassCancelType {
    FirmInstrument = 3,
    FirmSegment = 4,
    CompId = 7,
    Firm = 8,
    CompIdInstrument = 9,
    CompIdSegment = 15,
}

impl Code for MassCancelType {
    ghost list = { lists.MassCancelTypes };

    ghost coded = { λ x. codes.mass_cancel_type_code x };

    ghost sound = { record { every = λ x. Prim.grind arith; one = λ x y h. Prim.grind arith } };

    fn of(byte: u8) -> Option<MassCancelType> {
        value_of!(byte, MassCancelType::{
            FirmInstrument, FirmSegment, CompId, Firm, CompIdInstrument, CompIdSegment,
        })
    }

    fn byte(&self) -> u8 {
        *self as u8
    }
}
