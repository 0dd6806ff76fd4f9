// A message's layout, field by field.
use codes::lists::Codes;

/// How a field holds its value. Those without a width have the one of their type.
#[derive(Clone, Copy)]
pub enum Form {
    Text(usize),
    /// Text that is not empty.
    Name(usize),
    /// An order's identifier, or null.
    Order,
    UInt32,
    UInt64,
    /// An Int32 that is not negative.
    Sequence,
    Int8,
    Int32,
    Price,
    Time,
    /// A byte that is listed.
    Code(Codes),
    /// Any byte, which reads as a character.
    Alpha,
    Reserved(usize),
}

/// Where a field stands. Some matter only if the byte at another place is one of a list, and are passed over if not.
#[derive(Clone, Copy)]
pub enum Field {
    Always(usize, Form),
    When(usize, Form, usize, Codes),
}

impl Field {
    ghost use Rattle.std.specs.Prelude.{◌≡◌};
    ghost use Rattle.layout.specs.Layout.{place, form_of};

    /// Where the field begins.
    pub fn at(self) -> usize
        ensures { result ≡ place self }
    {
        match self {
            Field::Always(at, _) | Field::When(at, _, _, _) => at,
        }
    }

    /// How it holds its value, where it matters.
    pub fn form(self) -> Form
        ensures { result ≡ form_of self }
    {
        match self {
            Field::Always(_, form) | Field::When(_, form, _, _) => form,
        }
    }
}
