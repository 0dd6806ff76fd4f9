// One line of a script, as the bytes that a program reads.
ghost use Rattle.std.specs.Prelude.{◌≡◌, IfOk};
ghost use Rattle.bench_words.specs.Lines.{Parted, is_comment, skips};

use std::alloc::{AllocError, Global};

fn is_comment(word: &str) -> bool
    ensures { result ≡ is_comment word.now }
{
    match word.as_bytes() {
        [first, ..] => *first == b'#',
        [] => false,
    }
}

/// Whether a line says nothing: it has no word, or its first begins with `#`.
pub fn is_skipped(words: &[&str]) -> bool
    ensures { result ≡ skips words.now }
{
    match *words {
        [first, ..] => is_comment(first),
        [] => true,
    }
}

/// The words of a line, which is given without the bytes that end it; none where it is no text. Its one error is want
/// of memory.
pub fn parted<'a>(heap: Global, line: &'a [u8]) -> Result<Option<Vec<&'a str>>, AllocError>
    ensures { IfOk result (Parted line.now) }
{
    match str::from_utf8(line) {
        Ok(text) => Ok(Some(text.split_whitespace().collect(heap)?)),
        Err(_) => Ok(None),
    }
}
