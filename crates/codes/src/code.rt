// A byte that stands for one of a few values.
ghost use Rattle.std.specs.Prelude.{◌≡◌, ℕ, is_some, IfSome};
ghost use Rattle.codes.specs.declared.lists.Codes.{Codes as Lists};
ghost use Rattle.codes.specs.Lists.{listed, AreSound};
ghost use Rattle.codes.specs.Member.{member};

/// What a field of one byte says: one of a few values, each with a byte of its own.
pub trait Code {
    // the list of their bytes
    ghost list: { Lists };

    // the byte of a value
    ghost coded: { Self → ℕ };

    /// The value that a byte stands for; none where the byte is not listed.
    fn of(byte: u8) -> Option<Self>
    where
        Self: Sized,
        ensures listed { is_some result ≡ member byte (listed list) }
        ensures value { IfSome result (λ x. coded x ≡ byte) };

    /// The byte that stands for the value.
    fn byte(&self) -> u8
        ensures { result ≡ Self.coded self.now };

    // each value's byte is listed, and no two values have one byte
    ghost sound: { AreSound list coded };
}

/// The value of an enum that a byte stands for, of those that are named: each by the number that the enum gives it.
#[macro_export]
macro_rules! value_of {
    ($byte:expr, $name:ident::{ $($value:ident),+ $(,)? }) => {
        match $byte {
            $(b if b == $name::$value as u8 => Some($name::$value),)+
            _ => None,
        }
    };
}
