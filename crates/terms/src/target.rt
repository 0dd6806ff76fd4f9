// The book that an order is for.
ghost use Rattle.std.specs.Prelude.{◌≡◌};

use codes::order::{Book, ExecInstruction};

/// The book that an order is for: only in the dark book an order says when it takes part.
#[derive(Clone, Copy, Debug, PartialEq)]
pub enum Target {
    DarkMidpoint(ExecInstruction),
    Integrated,
}

impl Target {
    ghost use Rattle.terms.specs.Target.{book_of};

    /// The book, without when the order takes part in it.
    pub fn book(&self) -> Book
        ensures { result ≡ book_of self.now }
    {
        match self {
            Target::DarkMidpoint(_) => Book::DarkMidpoint,
            Target::Integrated => Book::Integrated,
        }
    }
}
