// The trades that a tape is to play, as the words of a line.
ghost use Rattle.std.specs.Prelude.{◌≡◌, Some, None, IfOk, if◌then◌else◌};
ghost use Rattle.bench_words.specs.Tapes.{is_tape, lines_of};

use crate::words::tape_line;
use matching::tape::Line;
use std::alloc::{AllocError, Global};

/// The words `matcher tape`, and a word for each trade.
#[derive(Clone, Copy)]
pub struct Tape<'a> {
    words: &'a [&'a str],
}

fn is_tape(words: &[&str]) -> bool
    ensures { result ≡ is_tape words.now }
{
    words.iter().skip(2).all(|word| tape_line(word).is_some())
}

impl<'a> Tape<'a> {
    /// The tape of a line's words; none where a word behind the second is no trade.
    pub fn read(words: &'a [&'a str]) -> Option<Tape<'a>>
        ensures { result ≡ (if is_tape words.entry.now then Some (record { words = words.entry }) else None) }
    {
        if is_tape(words) {
            Some(Tape { words })
        } else {
            None
        }
    }

    /// The trades. Its one error is want of memory.
    pub fn lines(self, heap: Global) -> Result<Vec<Line>, AllocError>
        ensures { IfOk result (λ lines. lines.items ≡ lines_of self.entry.words.now) }
    {
        self.words
            .iter()
            .skip(2)
            .filter_map(|word| tape_line(word))
            .collect(heap)
    }
}
