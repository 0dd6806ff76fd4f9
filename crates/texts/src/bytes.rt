// Looking at the bytes of a text field.
ghost use Rattle.std.specs.Prelude.{◌≡◌, ◌≤◌, length};
ghost use Rattle.texts.specs.Bytes.{printable, all_printable, all_null, text_end};

/// Whether a byte is a character that a text may hold: a space to a tilde.
pub fn is_printable(byte: u8) -> bool
    ensures { result ≡ printable byte }
{
    (b' '..=b'~').contains(&byte)
}

/// Where a field's text ends: at its first byte that is not printable.
pub fn text_end(field: &[u8]) -> usize
    ensures value { result ≡ text_end field.now }
    ensures bound { result ≤ length field.now }
{
    field.iter().take_while(|b| is_printable(**b)).count()
}

/// Whether all bytes are printable.
pub fn all_printable(text: &[u8]) -> bool
    ensures { result ≡ all_printable text.now }
{
    text.iter().all(|b| is_printable(*b))
}

/// Whether all bytes are null.
pub fn all_null(field: &[u8]) -> bool
    ensures { result ≡ all_null field.now }
{
    field.iter().all(|b| *b == 0)
}
