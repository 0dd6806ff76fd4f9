// An engine that plays a list of trades, each against one open order as its passive side.
ghost use Rattle.std.specs.Prelude.{◌≡◌, ◌≤◌, true, vec_len, vec_capacity};
ghost use Rattle.matching.specs.TapeRows.{all_apart, row_number};
ghost use Rattle.matching.specs.declared.tape.TheConstants as limit;

use crate::event::Event;
use crate::matcher::{Held, Matcher, Refusal, Ticket};
use crate::midpoint::MidpointRefusal;
use codes::order::Book;
use keyed::{Numbered, place_of};
use std::alloc::{AllocError, Global};
use texts::values::Price;

/// How many orders a tape takes at a time.
pub const CAPACITY: usize = 64;

/// One trade to play.
#[derive(Clone, Copy, Debug, PartialEq)]
pub struct Line {
    /// The number of the order that it trades.
    pub number: u64,
    /// In shares.
    pub quantity: u32,
    pub price: Price,
}

// An open order.
#[derive(Clone, Copy)]
struct Row {
    number: u64,
    instrument: u8,
    quantity: u32,
}

impl Numbered for Row {
    ghost key = { row_number };

    fn number(&self) -> u64 {
        self.number
    }
}

/// The tape: its open orders, and the trades that it is to play. All memory for the orders is reserved at the start.
#[derive(Drop)]
pub struct Tape {
    rows: Vec<Row>,
    lines: Vec<Line>,
    // the line that is played next
    at: usize,
    ghost reserved: { limit.CAPACITY ≤ vec_capacity rows },
    ghost limited: { vec_len rows ≤ limit.CAPACITY },
    ghost apart: { all_apart rows.items ≡ true },
}

impl Tape {
    ghost use Rattle.std.specs.Prelude.{◌≡◌, ◌<◌, ◌≤◌, true, false, is_some, Some, None, vec_len, IfOk, MatchOption};
    ghost use Rattle.std.specs.FinMap.{empty, get};
    ghost use Rattle.matching.specs.Meaning.{closed, filled, happened, opened, resized};
    ghost use Rattle.matching.specs.TapeRows.{FoundRow, row_held};
    ghost use Rattle.matching.specs.Tapes.{NextLine, ahead, fits, played, tape_meaning, trade};
    ghost use Rattle.matching.specs.declared.tape.TheConstants as limit;

    /// A tape with no order open that is to play the lines. Its one error is want of memory.
    pub fn new(heap: Global, lines: Vec<Line>) -> Result<Tape, AllocError>
        ensures { IfOk result (λ t. ((tape_meaning t).orders ≡ empty) × (ahead t ≡ lines.items)) }
    {
        let rows = Vec::with_capacity(heap, CAPACITY)?;
        Ok(Tape { rows, lines, at: 0 })
    }

    // The place of the order of a number.
    fn find(&self, number: u64) -> Option<usize>
        ensures found { FoundRow self.now.rows.items number result }
        ensures test { is_some result ≡ is_some (get (tape_meaning self.now).orders number) }
    {
        place_of(&self.rows, number)
    }

    // One more open order, of a number that has none.
    #[tactic(auto, using(crate::proofs::Rows::pushed, crate::proofs::Rows::pushed_apart))]
    fn add(&mut self, row: Row)
        requires new { get (tape_meaning self.old).orders row.number ≡ None }
        requires room { vec_len self.old.rows < limit.CAPACITY }
        ensures after { tape_meaning self.new ≡ opened (tape_meaning self.old) row.number (row_held row) }
        ensures ahead { ahead self.new ≡ ahead self.old }
    {
        self.rows.push_reserved(row);
    }

    // Ends the order at a place.
    #[tactic(auto, using(crate::proofs::Rows::removed, crate::proofs::Rows::removed_apart))]
    fn end(&mut self, i: usize, number: u64)
        requires { FoundRow self.old.rows.items number (Some i) }
        ensures after { tape_meaning self.new ≡ closed (tape_meaning self.old) number }
        ensures ahead { ahead self.new ≡ ahead self.old }
    {
        let _ = self.rows.remove(i);
    }

    // Sets the open quantity of the order at a place.
    #[tactic(auto, using(crate::proofs::Rows::requantified, crate::proofs::Rows::requantified_apart))]
    fn resize(&mut self, i: usize, number: u64, quantity: u32)
        requires { FoundRow self.old.rows.items number (Some i) }
        ensures after { tape_meaning self.new ≡ resized (tape_meaning self.old) number quantity }
        ensures ahead { ahead self.new ≡ ahead self.old }
    {
        self.rows[i].quantity = quantity;
    }

    // What is open under the number of the order at a place.
    #[tactic(auto, using(crate::proofs::Rows::held))]
    fn held_at(&self, i: usize, number: u64) -> Held
        requires { FoundRow self.now.rows.items number (Some i) }
        ensures { get (tape_meaning self.now).orders number ≡ Some result }
    {
        let row = self.rows[i];
        Held {
            instrument: row.instrument,
            quantity: row.quantity,
        }
    }

    // Takes a traded quantity off the order at a place, which ends where none is left.
    #[tactic(auto, using(crate::proofs::Rows::filled_part, crate::proofs::Rows::filled_whole))]
    fn fill(&mut self, i: usize, number: u64, quantity: u32)
        requires { FoundRow self.old.rows.items number (Some i) }
        ensures after { tape_meaning self.new ≡ filled (tape_meaning self.old) quantity (Some number) }
        ensures ahead { ahead self.new ≡ ahead self.old }
    {
        let open = self.held_at(i, number).quantity;
        if quantity < open {
            self.resize(i, number, open - quantity)
        } else {
            self.end(i, number)
        }
    }

    // The place of the order that a line trades, where the line fits.
    fn place_for(&self, line: Line) -> Option<usize>
        ensures { MatchOption result (fits (tape_meaning self.now).orders line ≡ false)
            (λ i. (fits (tape_meaning self.now).orders line ≡ true)
            × FoundRow self.now.rows.items line.number (Some i)) }
    {
        if line.quantity == 0 {
            return None;
        }
        let i = self.find(line.number)?;
        if line.quantity <= self.held_at(i, line.number).quantity {
            Some(i)
        } else {
            None
        }
    }

    // Goes on to the next line that fits, and gives it with the place of its order.
    fn next_line(&mut self) -> Option<(usize, Line)>
        ensures line { NextLine (tape_meaning self.new).orders self.new.rows.items
            (played (tape_meaning self.old).orders (ahead self.old)).0 result }
        ensures lines { ahead self.new ≡ (played (tape_meaning self.old).orders (ahead self.old)).1 }
        ensures same { tape_meaning self.new ≡ tape_meaning self.old }
    {
        while self.at < self.lines.len() {
            let line = self.lines[self.at];
            self.at += 1;
            if let Some(i) = self.place_for(line) {
                return Some((i, line));
            }
        }
        None
    }

    // Plays a line that fits against the order at a place.
    fn play(&mut self, i: usize, line: Line) -> Event
        requires { FoundRow self.old.rows.items line.number (Some i) }
        ensures event { result ≡ trade line }
        ensures after { tape_meaning self.new ≡ happened (tape_meaning self.old) result }
        ensures ahead { ahead self.new ≡ ahead self.old }
    {
        self.fill(i, line.number, line.quantity);
        Event::Trade {
            passive: Some(line.number),
            aggressive: None,
            quantity: line.quantity,
            price: line.price,
        }
    }
}

// Beside the trait's contract each call says what it does to the lines ahead, and the next event is the first that fits.
impl Matcher for Tape {
    ghost use Rattle.std.specs.Prelude.{◌≡◌, ◌≤◌, OnOk, is_ok, if◌then◌else◌};
    ghost use Rattle.matching.specs.Asked.{Enter, Cancel, Amend, Next};
    ghost use Rattle.std.specs.Result.{result_err};
    ghost use Rattle.matching.specs.Meaning.{Allowed, amend_refusal, cancel_refusal, closed, enter_refusal, happened, held_of, opened, resized};
    ghost use Rattle.matching.specs.Tapes.{ahead, played, TapeDid, tape_bounded, tape_meaning};

    ghost meaning = { tape_meaning };

    ghost Did = { TapeDid };

    ghost bounded = { tape_bounded };

    #[tactic(auto, using(crate::proofs::Rows::count))]
    fn enter(&mut self, number: u64, terms: Ticket) -> Result<(), Refusal>
        ensures refusal { result_err result ≡ enter_refusal (tape_meaning self.old) number terms.quantity }
        ensures after { tape_meaning self.new
            ≡ (if is_ok result then opened (tape_meaning self.old) number (held_of terms) else tape_meaning self.old) }
        ensures did { OnOk result (TapeDid self.old (Enter number terms) self.new) }
        ensures ahead { ahead self.new ≡ ahead self.old }
    {
        if terms.quantity == 0 {
            return Err(Refusal::NoQuantity);
        }
        if self.is_open(number) {
            return Err(Refusal::NumberOpen);
        }
        if self.open_count() >= CAPACITY {
            return Err(Refusal::Full);
        }
        self.add(Row {
            number,
            instrument: terms.instrument,
            quantity: terms.quantity,
        });
        Ok(())
    }

    fn cancel(&mut self, number: u64) -> Result<(), Refusal>
        ensures refusal { result_err result ≡ cancel_refusal (tape_meaning self.old) number }
        ensures after { tape_meaning self.new
            ≡ (if is_ok result then closed (tape_meaning self.old) number else tape_meaning self.old) }
        ensures did { OnOk result (TapeDid self.old (Cancel number) self.new) }
        ensures ahead { ahead self.new ≡ ahead self.old }
    {
        let i = self.find(number).ok_or(Refusal::NotOpen)?;
        self.end(i, number);
        Ok(())
    }

    // A tape knows no prices of its orders.
    fn amend(&mut self, number: u64, quantity: u32, _price: Price) -> Result<(), Refusal>
        ensures refusal { result_err result ≡ amend_refusal (tape_meaning self.old) number quantity }
        ensures after { tape_meaning self.new
            ≡ (if is_ok result then resized (tape_meaning self.old) number quantity else tape_meaning self.old) }
        ensures did { OnOk result (TapeDid self.old (Amend number quantity _price) self.new) }
        ensures ahead { ahead self.new ≡ ahead self.old }
    {
        let i = self.find(number).ok_or(Refusal::NotOpen)?;
        if quantity == 0 {
            return Err(Refusal::NoQuantity);
        }
        self.resize(i, number, quantity);
        Ok(())
    }

    fn next_event(&mut self) -> Event
        ensures allowed { Allowed (tape_meaning self.old).orders result }
        ensures after { tape_meaning self.new ≡ happened (tape_meaning self.old) result }
        ensures did { TapeDid self.old (Next result) self.new }
    {
        match self.next_line() {
            Some((i, line)) => self.play(i, line),
            None => Event::Nothing,
        }
    }

    fn midpoint(
        &mut self,
        _instrument: usize,
        _price: Option<Price>,
    ) -> Result<(), MidpointRefusal> {
        Err(MidpointRefusal::NoMidpoints)
    }

    fn open_order(&self, number: u64) -> Option<Held> {
        let i = self.find(number)?;
        Some(self.held_at(i, number))
    }

    #[tactic(auto, using(crate::proofs::Rows::count))]
    fn open_count(&self) -> usize {
        self.rows.len()
    }

    fn capacity(&self) -> usize {
        CAPACITY
    }

    fn serves(&self, _book: Book) -> bool {
        true
    }
}
