// Text that is kept: as wide as its field, with no heap.
ghost use Rattle.std.specs.Prelude.{◌≡◌, ◌<◌, ◌≤◌, true, false, length, replicate, MatchOption};
ghost use Rattle.texts.specs.Bytes.{all_printable, padded, said, is_text, named, text_end};
ghost use Rattle.texts.specs.Texts.{fitting, fitting_name};

use crate::bytes::all_printable;
use crate::text::{Name, Text};

/// The bytes of a text field, printable ones and then nothing but nulls, with the place where the text ends.
#[derive(Clone, Copy, Debug)]
pub struct FixedText<const N: usize> {
    pub(crate) bytes: [u8; N],
    /// How many of them are text.
    pub(crate) end: usize,
    ghost wide: { length bytes ≡ N },
    ghost text: { is_text bytes ≡ true },
    ghost ends: { end ≡ text_end bytes },
}

/// A request's Client Order ID, which is not empty.
#[derive(Clone, Copy, Debug)]
pub struct RequestId {
    pub(crate) id: FixedText<20>,
    ghost given: { named id.bytes ≡ true },
}

// Text, and nulls up to the width.
fn filled<const N: usize>(text: &[u8]) -> [u8; N]
    requires short { length text.now ≤ N }
    requires printable { all_printable text.now ≡ true }
    ensures value { result ≡ padded N text.now }
    ensures wide { length result ≡ N }
    ensures text { is_text result ≡ true }
    ensures said { said result ≡ text.now }
    ensures ends { text_end result ≡ length text.now }
    ensures named { 0 < length text.now → named result ≡ true }
{
    let mut bytes = [0; N];
    bytes[..text.len()].copy_from_slice(text);
    bytes
}

impl<const N: usize> FixedText<N> {
    ghost use Rattle.std.specs.Str.{bytes_eq};

    /// Keeps a text, if it fits the field and is printable throughout.
    pub fn new(text: &[u8]) -> Option<FixedText<N>>
        ensures { MatchOption result (fitting N text.now ≡ false)
            (λ t. (fitting N text.now ≡ true) × (t.bytes ≡ padded N text.now) × (said t.bytes ≡ text.now)) }
    {
        if text.len() > N || !all_printable(text) {
            return None;
        }
        Some(FixedText {
            bytes: filled(text),
            end: text.len(),
        })
    }

    /// The text that says nothing.
    pub fn empty() -> FixedText<N>
        ensures { result.bytes ≡ replicate N 0 }
    {
        FixedText {
            bytes: filled(b""),
            end: 0,
        }
    }

    /// What the text says.
    #[tactic(auto, using(crate::proofs::Padding::end_within))]
    pub fn as_bytes(&self) -> &[u8]
        ensures value { result.now ≡ said self.now.bytes }
        ensures bound { length result.now ≤ N }
    {
        let field = &self.bytes[..];
        &field[..self.end]
    }

    /// Whether two texts say the same. As behind a text all is null, their fields are compared, whose width is known.
    #[tactic(auto, using(crate::proofs::Padding::same_said))]
    pub fn says_same(&self, other: &FixedText<N>) -> bool
        ensures { result ≡ bytes_eq (said self.now.bytes) (said other.now.bytes) }
    {
        self.bytes == other.bytes
    }

    /// The same text, lent: the whole field, at offset 0.
    pub fn as_text(&self) -> Text<'_, N>
        ensures field { result.field.now ≡ self.now.bytes }
        ensures offset { result.offset ≡ 0 }
    {
        Text {
            field: &self.bytes,
            offset: 0,
            end: self.end,
        }
    }
}

impl RequestId {
    /// Keeps a text, if it fits the field, is printable throughout and is not empty.
    pub fn new(text: &[u8]) -> Option<RequestId>
        ensures { MatchOption result (fitting_name 20 text.now ≡ false)
            (λ t. (fitting_name 20 text.now ≡ true) × (t.id.bytes ≡ padded 20 text.now)
            × (said t.id.bytes ≡ text.now)) }
    {
        if text.is_empty() {
            return None;
        }
        let id = FixedText::new(text)?;
        Some(RequestId { id })
    }

    /// What the identifier says.
    pub fn as_bytes(&self) -> &[u8]
        ensures value { result.now ≡ said self.now.id.bytes }
        ensures bound { length result.now ≤ 20 }
    {
        self.id.as_bytes()
    }

    /// The same text, as one that may be empty.
    pub fn text(&self) -> FixedText<20>
        ensures { result ≡ self.now.id }
    {
        self.id
    }

    /// The same identifier, lent: the whole field, at offset 0.
    pub fn as_name(&self) -> Name<'_, 20>
        ensures field { result.text.field.now ≡ self.now.id.bytes }
        ensures offset { result.text.offset ≡ 0 }
    {
        Name {
            text: self.id.as_text(),
        }
    }
}
