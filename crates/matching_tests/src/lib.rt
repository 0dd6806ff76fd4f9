// Worked scenarios of the queue, the tape and the lit book, run as tests.
#![tactic(auto)]

#[cfg(test)]
mod tests {
    use codes::order::{Book, Side};
    use lit_book::book::LitBook;
    use matching::event::Event;
    use matching::matcher::{Matcher, Refusal, Ticket};
    use matching::tape::{Line, Tape};
    use queue::Queue;
    use std::test::Fail;
    use terms::lifetime::Lifetime;
    use terms::pricing::Pricing;
    use texts::values::Price;

    fn limit(side: Side, price: i64, quantity: u32) -> Ticket {
        Ticket {
            instrument: 0,
            side,
            pricing: Pricing::Limit(Price { raw: price }),
            lifetime: Lifetime::Day,
            quantity,
            book: Book::Integrated,
        }
    }

    fn traded(passive: u64, aggressive: u64, quantity: u32, price: i64) -> Event {
        Event::Trade {
            passive: Some(passive),
            aggressive: Some(aggressive),
            quantity,
            price: Price { raw: price },
        }
    }

    fn line(number: u64, quantity: u32, price: i64) -> Line {
        Line {
            number,
            quantity,
            price: Price { raw: price },
        }
    }

    // The queue goes round its slots and keeps its order when one leaves from the middle.
    #[test]
    fn queue_goes_round(rt: HostRuntime) {
        let mut slots = [0u64; 3];
        let mut queue = Queue::over(&mut slots);
        assert!(rt; queue.push(1).is_ok());
        assert!(rt; queue.push(2).is_ok());
        assert!(rt; queue.push(3).is_ok());
        assert_eq!(rt; queue.push(4), Err(4));
        assert_eq!(rt; queue.pop(), Some(1));
        assert!(rt; queue.push(4).is_ok());
        assert_eq!(rt; queue.remove(1), Some(3));
        assert_eq!(rt; queue.front(), Some(2));
        assert_eq!(rt; queue.get(1), Some(4));
        assert_eq!(rt; queue.len(), 2);
    }

    // The tape passes over lines that do not fit at their turn.
    #[test]
    fn tape_passes_over(rt: HostRuntime) -> Result<(), Fail> {
        let mut lines = Vec::new(rt.alloc());
        lines.push(line(9, 5, 100))?;
        lines.push(line(1, 60, 100))?;
        lines.push(line(1, 0, 100))?;
        lines.push(line(1, 20, 101))?;
        lines.push(line(1, 30, 102))?;
        let mut tape = Tape::new(rt.alloc(), lines)?;
        assert_eq!(rt;
            tape.enter(1, limit(Side::Buy, 100, 0)),
            Err(Refusal::NoQuantity)
        );
        assert_eq!(rt; tape.enter(1, limit(Side::Buy, 100, 50)), Ok(()));
        assert_eq!(rt;
            tape.enter(1, limit(Side::Buy, 100, 50)),
            Err(Refusal::NumberOpen)
        );
        assert_eq!(rt;
            tape.next_event(),
            Event::Trade {
                passive: Some(1),
                aggressive: None,
                quantity: 20,
                price: Price { raw: 101 },
            }
        );
        assert_eq!(rt; tape.open_quantity(1), 30);
        assert_eq!(rt;
            tape.next_event(),
            Event::Trade {
                passive: Some(1),
                aggressive: None,
                quantity: 30,
                price: Price { raw: 102 },
            }
        );
        assert!(rt; tape.is_empty());
        assert_eq!(rt; tape.next_event(), Event::Nothing);
        drop(tape);
        Ok(())
    }

    // An order that is made larger loses its place, one that is made smaller keeps it.
    #[test]
    fn amended_orders(rt: HostRuntime) -> Result<(), Fail> {
        let mut book = LitBook::new(rt.alloc())?;
        assert_eq!(rt; book.enter(1, limit(Side::Sell, 100, 10)), Ok(()));
        assert_eq!(rt; book.enter(2, limit(Side::Sell, 100, 10)), Ok(()));
        assert_eq!(rt; book.next_event(), Event::Nothing);
        assert_eq!(rt; book.amend(1, 5, Price { raw: 100 }), Ok(()));
        assert_eq!(rt; book.enter(3, limit(Side::Buy, 100, 5)), Ok(()));
        assert_eq!(rt; book.next_event(), traded(1, 3, 5, 100));
        assert_eq!(rt; book.enter(4, limit(Side::Sell, 100, 10)), Ok(()));
        assert_eq!(rt; book.amend(2, 11, Price { raw: 100 }), Ok(()));
        assert_eq!(rt; book.enter(5, limit(Side::Buy, 101, 12)), Ok(()));
        assert_eq!(rt; book.next_event(), traded(4, 5, 10, 100));
        assert_eq!(rt; book.next_event(), traded(2, 5, 2, 100));
        assert_eq!(rt; book.next_event(), Event::Nothing);
        assert_eq!(rt; book.cancel(5), Err(Refusal::NotOpen));
        drop(book);
        Ok(())
    }

    // What is not traded of an immediate order expires.
    #[test]
    fn immediate_orders_expire(rt: HostRuntime) -> Result<(), Fail> {
        let mut book = LitBook::new(rt.alloc())?;
        assert_eq!(rt; book.enter(1, limit(Side::Buy, 99, 10)), Ok(()));
        let terms = Ticket {
            instrument: 0,
            side: Side::Sell,
            pricing: Pricing::Market,
            lifetime: Lifetime::ImmediateOrCancel,
            quantity: 15,
            book: Book::Integrated,
        };
        assert_eq!(rt; book.enter(2, terms), Ok(()));
        assert_eq!(rt; book.next_event(), traded(1, 2, 10, 99));
        assert_eq!(rt; book.next_event(), Event::Expired(2));
        assert_eq!(rt; book.next_event(), Event::Nothing);
        drop(book);
        Ok(())
    }
}
