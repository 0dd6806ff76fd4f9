// Text as it stands in a message: borrowed, its width in its type.
ghost use Rattle.std.specs.Prelude.{◌≡◌, true, length};
ghost use Rattle.texts.specs.Bytes.{is_text, named, text_end};

use crate::fixed::{FixedText, RequestId};

/// A text field of N bytes, printable ones and then nothing but nulls, with the place where its text ends.
#[derive(Clone, Copy, Debug)]
pub struct Text<'a, const N: usize> {
    /// The whole field, with its nulls.
    pub field: &'a [u8],
    /// Where the field begins in the message that it was read from; 0 in a text of its own.
    pub offset: usize,
    /// How many bytes of the field are text.
    pub end: usize,
    ghost wide: { length field.now ≡ N },
    ghost text: { is_text field.now ≡ true },
    ghost ends: { end ≡ text_end field.now },
}

/// A text that is not empty.
#[derive(Clone, Copy, Debug)]
pub struct Name<'a, const N: usize> {
    pub text: Text<'a, N>,
    ghost given: { named text.field.now ≡ true },
}

impl<'a, const N: usize> Text<'a, N> {
    ghost use Rattle.std.specs.Prelude.{◌≤◌};
    ghost use Rattle.texts.specs.Says.{says, kept};

    /// What the text says: its printable bytes.
    pub fn as_bytes(&self) -> &'a [u8]
        ensures value { result.now ≡ says self.now }
        ensures bound { length result.now ≤ N }
    {
        let field = self.field;
        &field[..self.end]
    }

    /// Where the field begins in its message.
    pub fn offset(&self) -> usize
        ensures { result ≡ self.now.offset }
    {
        self.offset
    }

    /// The same text, kept.
    #[tactic(auto, using(crate::proofs::Kept::fixed_same))]
    pub fn keep(&self) -> FixedText<N>
        ensures { result ≡ kept self.now }
    {
        let mut bytes = [0; N];
        bytes.copy_from_slice(self.field);
        FixedText {
            bytes,
            end: self.end,
        }
    }
}

impl<'a, const N: usize> Name<'a, N> {
    ghost use Rattle.std.specs.Prelude.{◌<◌, ◌≤◌};
    ghost use Rattle.texts.specs.Says.{says};

    /// What the name says, which is at least one byte.
    #[tactic(auto, using(crate::proofs::Kept::named_says))]
    pub fn as_bytes(&self) -> &'a [u8]
        ensures value { result.now ≡ says self.now.text }
        ensures bound { length result.now ≤ N }
        ensures given { 0 < length result.now }
    {
        self.text.as_bytes()
    }

    /// Where the field begins in its message.
    pub fn offset(&self) -> usize
        ensures { result ≡ self.now.text.offset }
    {
        self.text.offset
    }
}

impl<'a> Name<'a, 20> {
    ghost use Rattle.texts.specs.Says.{kept};

    /// The same name, kept.
    pub fn keep(&self) -> RequestId
        ensures { result.id ≡ kept self.now.text }
    {
        RequestId {
            id: self.text.keep(),
        }
    }
}
