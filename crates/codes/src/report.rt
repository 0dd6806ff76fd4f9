// The codes of reports. `Unspecified` is a null byte.
ghost use Rattle.std.proofs.Common.{arith};
ghost use Rattle.codes.specs.Report as codes;
ghost use Rattle.codes.specs.declared.lists.Codes.TheVariants as lists;

use crate::code::Code;
use crate::value_of;

/// Why an Execution Report is sent.
#[derive(Clone, Copy, Debug, PartialEq, Eq)]
pub enum ExecType {
    Unspecified = 0,
    New = b'0' as isize,
    Cancelled = b'4' as isize,
    Replaced = b'5' as isize,
    Rejected = b'8' as isize,
    Expired = b'C' as isize,
    Restated = b'D' as isize,
    Trade = b'F' as isize,
    TradeCancel = b'H' as isize,
}

impl Code for ExecType {
    ghost list = { lists.ExecTypes };

    ghost coded = { λ x. codes.exec_type_code x };

    ghost sound = { record { every = λ x. Prim.grind arith; one = λ x y h. Prim.grind arith } };

    fn of(byte: u8) -> Option<ExecType> {
        value_of!(byte, ExecType::{
            Unspecified, New, Cancelled, Replaced, Rejected, Expired, Restated, Trade, TradeCancel,
        })
    }

    fn byte(&self) -> u8 {
        *self as u8
    }
}

/// The status of an order.
#[derive(Clone, Copy, Debug, PartialEq, Eq)]
pub enum Status {
    New = 0,
    PartiallyFilled = 1,
    Filled = 2,
    Cancelled = 4,
    Expired = 6,
    Rejected = 8,
}

impl Code for Status {
    ghost list = { lists.Statuses };

    ghost coded = { λ x. codes.status_code x };

    ghost sound = { record { every = λ x. Prim.grind arith; one = λ x y h. Prim.grind arith } };

    fn of(byte: u8) -> Option<Status> {
        value_of!(byte, Status::{New, PartiallyFilled, Filled, Cancelled, Expired, Rejected})
    }

    fn byte(&self) -> u8 {
        *self as u8
    }
}

/// Whether a fill added or removed liquidity.
#[derive(Clone, Copy, Debug, PartialEq, Eq)]
pub enum Liquidity {
    Unspecified = 0,
    Added = b'A' as isize,
    Uncrossing = b'C' as isize,
    Removed = b'R' as isize,
}

impl Code for Liquidity {
    ghost list = { lists.Liquidities };

    ghost coded = { λ x. codes.liquidity_code x };

    ghost sound = { record { every = λ x. Prim.grind arith; one = λ x y h. Prim.grind arith } };

    fn of(byte: u8) -> Option<Liquidity> {
        value_of!(byte, Liquidity::{Unspecified, Added, Uncrossing, Removed})
    }

    fn byte(&self) -> u8 {
        *self as u8
    }
}

/// Whether the executed part was shown.
#[derive(Clone, Copy, Debug, PartialEq, Eq)]
pub enum TradeType {
    Visible = 0,
    Hidden = 1,
}

impl Code for TradeType {
    ghost list = { lists.TradeTypes };

    ghost coded = { λ x. codes.trade_type_code x };

    ghost sound = { record { every = λ x. Prim.grind arith; one = λ x y h. Prim.grind arith } };

    fn of(byte: u8) -> Option<TradeType> {
        value_of!(byte, TradeType::{Visible, Hidden})
    }

    fn byte(&self) -> u8 {
        *self as u8
    }
}

/// The capacity that a report tells.
#[derive(Clone, Copy, Debug, PartialEq, Eq)]
pub enum Capacity {
    RisklessPrincipal = 1,
    Principal = 2,
    Agency = 3,
}

impl Code for Capacity {
    ghost list = { lists.Capacities };

    ghost coded = { λ x. codes.capacity_code x };

    ghost sound = { record { every = λ x. Prim.grind arith; one = λ x y h. Prim.grind arith } };

    fn of(byte: u8) -> Option<Capacity> {
        value_of!(byte, Capacity::{RisklessPrincipal, Principal, Agency})
    }

    fn byte(&self) -> u8 {
        *self as u8
    }
}

/// How an order's price stands to the best one.
#[derive(Clone, Copy, Debug, PartialEq, Eq)]
pub enum PriceDifferential {
    Unspecified = 0,
    JoinBest = b'1' as isize,
    Second = b'2' as isize,
    Third = b'3' as isize,
    Fourth = b'4' as isize,
    Fifth = b'5' as isize,
    Sixth = b'6' as isize,
    Seventh = b'7' as isize,
    Eighth = b'8' as isize,
    NinthOrWorse = b'9' as isize,
    Aggressive = b'A' as isize,
    NewBest = b'B' as isize,
    Passive = b'P' as isize,
}

impl Code for PriceDifferential {
    ghost list = { lists.PriceDifferentials };

    ghost coded = { λ x. codes.price_differential_code x };

    ghost sound = { record { every = λ x. Prim.grind arith; one = λ x y h. Prim.grind arith } };

    fn of(byte: u8) -> Option<PriceDifferential> {
        value_of!(byte, PriceDifferential::{
            Unspecified, JoinBest, Second, Third, Fourth, Fifth, Sixth, Seventh, Eighth,
            NinthOrWorse, Aggressive, NewBest, Passive,
        })
    }

    fn byte(&self) -> u8 {
        *self as u8
    }
}

/// Whether a mass cancel was accepted.
#[derive(Clone, Copy, Debug, PartialEq, Eq)]
pub enum MassResponse {
    Rejected = 0,
    Accepted = 7,
}

impl Code for MassResponse {
    ghost list = { lists.MassResponses };

    ghost coded = { λ x. codes.mass_response_code x };

    ghost sound = { record { every = λ x. Prim.grind arith; one = λ x y h. Prim.grind arith } };

    fn of(byte: u8) -> Option<MassResponse> {
        value_of!(byte, MassResponse::{Rejected, Accepted})
    }

    fn byte(&self) -> u8 {
        *self as u8
    }
}
