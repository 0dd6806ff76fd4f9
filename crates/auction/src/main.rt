// Plays a script of calls on a lit book, and prints what each did.
#![tactic(auto)]

use auction_script::account::Account;
use auction_script::command::Command;
use auction_script::ladder::ladder;
use auction_script::line;
use auction_script::line::Line;
use console::{About, Session};
use lit_book::book::LitBook;
use matching::event::Event;
use matching::matcher::{Matcher, Refusal};
use std::io;
use std::process::ExitCode;

const ABOUT: About = About {
    name: "auction",
    summary: "Plays a script of calls on a lit order book, a line each, and prints what each did; then an account.",
    words: "  enter NUMBER INSTRUMENT buy|sell market|limit day|ioc PRICE QTY
                   opens an order; a market order has a price word too, which is not kept
  cancel NUMBER    ends an order
  amend NUMBER QTY PRICE
                   sets the open quantity and the price of an order
  run              takes events until there is none
  book             shows the orders at rest, and how many wait
  # ...            a comment; blank lines are passed over too

All numbers are whole but PRICE, a decimal number with up to eight places, such as 101 or 100.5.",
};

fn answer<R: Print>(
    rt: &R,
    account: &mut Account,
    done: &str,
    res: Result<(), Refusal>,
) -> io::Result<()> {
    account.call(res);
    match res {
        Ok(()) => println!(rt; "{done}"),
        Err(reason) => println!(rt; "refused: {reason}"),
    }
}

// Every event until there is none.
fn run<R: Print>(rt: &R, account: &mut Account, book: &mut LitBook) -> io::Result<()> {
    for _ in 0..=book.most_events() {
        let event = book.next_event();
        account.event(event);
        rt.println(event)?;
        if let Event::Nothing = event {
            break;
        }
    }
    Ok(())
}

fn show<R: Print + AllocGlobal>(rt: &R, book: &LitBook) -> io::Result<()> {
    let shown = ladder(rt.alloc(), book.resting())?;
    for order in shown.iter() {
        rt.println(*order)?;
    }
    let waiting = book.waiting().len();
    println!(rt; "waiting: {waiting}")
}

fn obey<R: Print + AllocGlobal>(
    rt: &R,
    account: &mut Account,
    book: &mut LitBook,
    order: Command,
) -> io::Result<()> {
    match order {
        Command::Enter(number, terms) => {
            let result = book.enter(number, terms);
            answer(rt, account, "entered", result)
        }
        Command::Cancel(number) => {
            let result = book.cancel(number);
            answer(rt, account, "cancelled", result)
        }
        Command::Amend(number, quantity, price) => {
            let result = book.amend(number, quantity, price);
            answer(rt, account, "amended", result)
        }
        Command::Run => run(rt, account, book),
        Command::Show => show(rt, book),
    }
}

fn answer_line<R: Print + AllocGlobal>(
    rt: &R,
    account: &mut Account,
    book: &mut LitBook,
    line: &[u8],
) -> io::Result<()> {
    match line::read(rt.alloc(), line)? {
        Line::Skipped => Ok(()),
        Line::Call(order) => obey(rt, account, book, order),
        Line::Misread(word) => println!(rt; "not read: {word}"),
    }
}

/// A book, and what has been done on it.
#[derive(Drop)]
struct Auction {
    book: LitBook,
    account: Account,
}

impl Session for Auction {
    fn line<R: Print + AllocGlobal>(&mut self, rt: &R, line: &[u8]) -> io::Result<()> {
        answer_line(rt, &mut self.account, &mut self.book, line)
    }

    fn close<R: Print + AllocGlobal>(&mut self, rt: &R) -> io::Result<()> {
        let accepted = self.account.accepted;
        let refused = self.account.refused;
        let trades = self.account.trades;
        let traded = self.account.traded;
        let expired = self.account.expired;
        println!(rt; "calls: {accepted} accepted, {refused} refused")?;
        println!(rt; "events: {trades} trades of {traded}, {expired} expired")
    }
}

fn main(rt: HostRuntime) -> ExitCode {
    match LitBook::new(rt.alloc()) {
        Ok(book) => {
            let mut auction = Auction {
                book,
                account: Account::new(),
            };
            console::run(&rt, ABOUT, &mut auction)
        }
        Err(_) => {
            let _ = eprintln!(rt; "auction: out of memory");
            ExitCode::FAILURE
        }
    }
}
