// What is wrong with bytes that are no message.
ghost use Rattle.std.specs.Prelude.{◌≡◌};
ghost use Rattle.layout.specs.Faults.{fault_number, fault_offset};

use thiserror::Error;

/// The first check of a message that its bytes fail.
#[derive(Clone, Copy, Debug, PartialEq, Error)]
pub enum Fault {
    /// The bytes end before the message does.
    #[error("the message is cut short")]
    Short,
    /// The first byte is not the start byte.
    #[error("the message does not begin with the start byte")]
    Start,
    /// The type is none that this reader takes.
    #[error("the type of the message is none that is taken here")]
    Unknown,
    /// The length is not that of the type, or of the bytes.
    #[error("the length of the message is not that of its type")]
    Length,
    /// The field at this offset does not hold what its form asks for.
    #[error("the field at offset {0} does not hold what it should")]
    Field(usize),
}

impl Fault {
    /// The number of the check, from 1 to 5, in the order in which they are made.
    pub fn number(self) -> u8
        ensures { result ≡ fault_number self }
    {
        match self {
            Fault::Short => 1,
            Fault::Start => 2,
            Fault::Unknown => 3,
            Fault::Length => 4,
            Fault::Field(_) => 5,
        }
    }

    /// Where in the bytes that stands which fails the check.
    pub fn offset(self) -> usize
        ensures { result ≡ fault_offset self }
    {
        match self {
            Fault::Short | Fault::Length => 1,
            Fault::Start => 0,
            Fault::Unknown => 3,
            Fault::Field(at) => at,
        }
    }
}
