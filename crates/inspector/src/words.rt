// The words of a line: blanks stand between them.
ghost use Rattle.std.specs.Prelude.{◌≡◌, ◌≤◌, length};
ghost use Rattle.std.specs.List.{prefix_len};
ghost use Rattle.inspector.specs.Words.{is_blank, is_solid, first_word, after_word};

fn is_blank(byte: u8) -> bool
    ensures { result ≡ is_blank byte }
{
    matches!(byte, b' ' | b'\t' | b'\r' | b'\n')
}

/// How many blanks stand at the front.
pub(crate) fn blanks(bytes: &[u8]) -> usize
    ensures value { result ≡ prefix_len is_blank bytes.now }
    ensures bound { result ≤ length bytes.now }
{
    bytes.iter().take_while(|b| is_blank(**b)).count()
}

fn solids(bytes: &[u8]) -> usize
    ensures value { result ≡ prefix_len is_solid bytes.now }
    ensures bound { result ≤ length bytes.now }
{
    bytes.iter().take_while(|b| !is_blank(**b)).count()
}

/// The first word, and what stands behind it.
pub(crate) fn word<'a>(bytes: &'a [u8]) -> (&'a [u8], &'a [u8])
    ensures first { result.0.now ≡ first_word bytes.now }
    ensures after { result.1.now ≡ after_word bytes.now }
{
    let rest = &bytes[blanks(bytes)..];
    rest.split_at(solids(rest))
}
