// The codes of sessions and of downloads.
ghost use Rattle.std.proofs.Common.{arith};
ghost use Rattle.codes.specs.Session as codes;
ghost use Rattle.codes.specs.declared.lists.Codes.TheVariants as lists;

use crate::code::Code;
use crate::value_of;

/// The one version of the messages.
#[derive(Clone, Copy, Debug, PartialEq, Eq)]
pub enum Version {
    One = 1,
}

impl Code for Version {
    ghost list = { lists.Versions };

    ghost coded = { λ x. codes.version_code x };

    ghost sound = { record { every = λ x. Prim.grind arith; one = λ x y h. Prim.grind arith } };

    fn of(byte: u8) -> Option<Version> {
        value_of!(byte, Version::{One})
    }

    fn byte(&self) -> u8 {
        *self as u8
    }
}

/// A part of the matching system, with sequence numbers of its own.
#[derive(Clone, Copy, Debug, PartialEq, Eq)]
pub enum Partition {
    One = 1,
    Two = 2,
    Three = 3,
}

impl Code for Partition {
    ghost list = { lists.Partitions };

    ghost coded = { λ x. codes.partition_code x };

    ghost sound = { record { every = λ x. Prim.grind arith; one = λ x y h. Prim.grind arith } };

    fn of(byte: u8) -> Option<Partition> {
        value_of!(byte, Partition::{One, Two, Three})
    }

    fn byte(&self) -> u8 {
        *self as u8
    }
}

/// The answer to a Missed Message Request.
#[derive(Clone, Copy, Debug, PartialEq, Eq)]
pub enum AckResponse {
    Successful = 0,
    LimitReached = 1,
    InvalidAppId = 2,
    ServiceUnavailable = 3,
}

impl Code for AckResponse {
    ghost list = { lists.AckResponses };

    ghost coded = { λ x. codes.ack_response_code x };

    ghost sound = { record { every = λ x. Prim.grind arith; one = λ x y h. Prim.grind arith } };

    fn of(byte: u8) -> Option<AckResponse> {
        value_of!(byte, AckResponse::{Successful, LimitReached, InvalidAppId, ServiceUnavailable})
    }

    fn byte(&self) -> u8 {
        *self as u8
    }
}

/// How a download ended.
#[derive(Clone, Copy, Debug, PartialEq, Eq)]
pub enum ReportResponse {
    Complete = 0,
    MessageLimit = 1,
    ServiceUnavailable = 3,
}

impl Code for ReportResponse {
    ghost list = { lists.ReportResponses };

    ghost coded = { λ x. codes.report_response_code x };

    ghost sound = { record { every = λ x. Prim.grind arith; one = λ x y h. Prim.grind arith } };

    fn of(byte: u8) -> Option<ReportResponse> {
        value_of!(byte, ReportResponse::{Complete, MessageLimit, ServiceUnavailable})
    }

    fn byte(&self) -> u8 {
        *self as u8
    }
}
