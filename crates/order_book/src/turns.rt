// The numbers of the waiting orders in turn, in a queue over memory of the book's own.
ghost use Rattle.std.specs.Prelude.{◌≡◌, [], ◌∷◌, ◌++◌, length, drop, if◌then◌else◌, nat_lt};
ghost use Rattle.std.specs.List.{slice_get, remove};
ghost use Rattle.limits.specs.declared.TheConstants as limit;

use limits::ORDERS;
use queue::{Marks, Queue};
use std::marker::Model;

#[derive(Drop)]
pub(crate) struct Turns {
    slots: [u64; ORDERS],
    marks: Marks,
}

// In clauses it is the list of the numbers, the oldest first.
impl Model for Turns {
    ghost use Rattle.std.specs.Prelude.{List, ℕ};

    ghost Value = { List ℕ };

    ghost use Rattle.order_book.specs.Turns.{queued};

    ghost view = { queued };
}

impl Turns {
    pub(crate) fn new() -> Turns
        ensures { result ≡ [] }
    {
        Turns {
            slots: [0; ORDERS],
            marks: Marks { head: 0, len: 0 },
        }
    }

    // The number of the order whose turn it is.
    pub(crate) fn front(&mut self) -> Option<u64>
        ensures value { result ≡ slice_get self.old 0 }
        ensures same { self.new ≡ self.old }
    {
        let queue = Queue::resume(&mut self.slots, self.marks);
        let front = queue.front();
        self.marks = queue.marks();
        front
    }

    // One more at the back, where there is room.
    pub(crate) fn join(&mut self, number: u64)
        ensures { self.new ≡ (if nat_lt (length self.old) limit.ORDERS then self.old ++ number ∷ [] else self.old) }
    {
        let mut queue = Queue::resume(&mut self.slots, self.marks);
        let _ = queue.push(number);
        self.marks = queue.marks();
    }

    // Takes the oldest out.
    pub(crate) fn advance(&mut self)
        ensures { self.new ≡ drop 1 self.old }
    {
        let mut queue = Queue::resume(&mut self.slots, self.marks);
        let _ = queue.pop();
        self.marks = queue.marks();
    }

    // Takes one out, wherever it stands; the others keep their turn.
    pub(crate) fn leave(&mut self, place: usize)
        ensures { self.new ≡ remove self.old place }
    {
        let mut queue = Queue::resume(&mut self.slots, self.marks);
        let _ = queue.remove(place);
        self.marks = queue.marks();
    }
}
