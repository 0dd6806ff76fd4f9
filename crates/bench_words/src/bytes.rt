// The bytes of a message as a script writes them, and as answers show them.
ghost use Rattle.std.specs.Prelude.{◌≡◌, Some, IfOk, if◌then◌else◌, None};
ghost use Rattle.std.specs.List.{list_all};
ghost use Rattle.hex.specs.Hex.{is_hex_digit};
ghost use Rattle.bench_words.specs.Bytes.{bytes_of, is_bytes, is_digits};

use hex::FromHexError;
use std::alloc::{AllocError, Global};

/// Bytes as a word of pairs of hex digits, or `-` for none.
#[derive(Clone, Copy)]
pub struct Bytes<'a> {
    word: &'a str,
}

fn are_digits(word: &[u8]) -> bool
    ensures { result ≡ list_all is_hex_digit word.now }
{
    word.iter().all(|b| { matches!(*b, b'0'..=b'9' | b'A'..=b'F' | b'a'..=b'f') })
}

fn is_digits(word: &[u8]) -> bool
    ensures { result ≡ is_digits word.now }
{
    word.len() % 2 == 0 && are_digits(word)
}

fn is_bytes(word: &str) -> bool
    ensures { result ≡ is_bytes word.now }
{
    word == "-" || is_digits(word.as_bytes())
}

impl<'a> Bytes<'a> {
    /// The bytes of a word; none where it is neither pairs of hex digits nor `-`.
    pub fn read(word: &'a str) -> Option<Bytes<'a>>
        ensures { result ≡ (if is_bytes word.entry.now then Some (record { word = word.entry }) else None) }
    {
        if is_bytes(word) {
            Some(Bytes { word })
        } else {
            None
        }
    }

    /// The bytes. Its one error is want of memory.
    pub fn to_vec(self, heap: Global) -> Result<Vec<u8>, AllocError>
        ensures { IfOk result (λ bytes. bytes.items ≡ bytes_of self.entry.word.now) }
    {
        match hex::decode(heap, self.word) {
            Ok(bytes) => Ok(bytes),
            Err(FromHexError::OutOfMemory) => Err(AllocError),
            Err(_) => Ok(Vec::new(heap)),
        }
    }
}
