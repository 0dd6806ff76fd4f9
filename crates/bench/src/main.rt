// Plays a script of calls on a gateway, and prints what each was answered.
#![tactic(auto)]

use bench_play::failure::Failure;
use bench_play::play::Play;
use console::{About, Session};
use std::io;
use std::process::ExitCode;

const ABOUT: About = About {
    name: "bench",
    summary: "Plays a script of calls on an order gateway, a line each, and prints what each was answered; then an account.",
    words: "What the gateway is started with:

  compid NAME PASSWORD FIRM yes|no
                   a CompID, whose line is its place in the list, from 0; yes: its marked orders end with the line
  instrument SYMBOL SEGMENT PARTITION
  matcher lit      the lit book, which is the matcher where no line says so
  matcher dark     the dark midpoint book
  matcher pair     both of them: an order goes to the book that it is for
  matcher tape ORDER,QTY,PRICE ORDER,QTY,PRICE ..
                   a list of trades, each against one open order
  store records PLACES
                   a store of reports; the store where no line says so has 16384 places
  store wire BYTES
                   a store of wire bytes
  follow LINE      a desk's follower of a line
  start

The gateway's calls, as they are. TIME is SECONDS.MICROSECONDS, two whole numbers round a point; HEX is the bytes of a message, - for none:

  real-time LINE TIME HEX
  recovery LINE TIME HEX
  step TIME
  cancel-trade NUMBER TIME
  line-lost LINE TIME
  send LINE
  send-recovered LINE

A question, which changes nothing: what would go if these bytes were given to the line as a mass cancel. It is answered with
the orders and their open shares in partitions 1, 2 and 3, or as the mass cancel would be refused:

  preview LINE HEX

The matcher's midpoint of an instrument, by its number in the script, from 0; PRICE is one above 0:

  midpoint INSTRUMENT PRICE|none

The follower's calls:

  up
  live HEX
  ask PARTITION
  recovered HEX
  lost

What a person does with the line that is followed, at the time of the clock. What the gateway answers and sends on that line
is under way to the desk until it is delivered:

  deliver          the next live message comes to the follower
  deliver recovered
                   the next message of the recovery channel comes
  repeat [BACK]    the last live message that came comes once more; with 2 the one before it
  repeat recovered the last message of the recovery channel that came comes once more
  pull             cuts the cable: what is under way is gone, and both ends are told
  reconnect        logs on both channels, and the follower is up
  catch up         asks for each partition and downloads it until it is level

Messages that are built from words and taken in on a line at the time of the clock. QTY is a whole number, PRICE a decimal number
with up to eight places, such as 101 or 100.5; orders are as principal on the house's account, day orders where no word says
ioc, and for the lit book where none says dark:

  time TIME        sets the clock
  logon LINE       with the CompID and the password of the line
  recover LINE     the same on the recovery channel
  logout LINE
  buy LINE SYMBOL QTY PRICE|market CLIENTID [ioc] [marked] [dark]
  sell LINE SYMBOL QTY PRICE|market CLIENTID [ioc] [marked] [dark]
                   ioc: immediate or cancel, what does not trade at once expires; marked: ends with the line, where the
                   CompID is so configured
  cancel LINE SYMBOL buy|sell CLIENTID ORIGINAL [dark]
  replace LINE SYMBOL buy|sell QTY PRICE CLIENTID ORIGINAL [ioc] [dark]
                   ioc: the order is immediate or cancel
  mass-cancel LINE CLIENTID own|firm [instrument SYMBOL [dark] | segment SEGMENT]
  preview-mass-cancel LINE CLIENTID own|firm [instrument SYMBOL [dark] | segment SEGMENT]
                   sends nothing: what would go by this mass cancel
  missed LINE PARTITION LAST
                   asks for a download of the reports of a partition behind number LAST

And:

  run              takes every event of the matcher, at the time of the clock
  drain LINE       sends all that there is to send
  download LINE    sends all of a download
  orders           shows every order
  follower         shows how far the follower is, and every order that it knows
  show HEX         shows a message as text
  print hex|text   how the messages of answers are shown
  # ...            a comment; blank lines are passed over too

The account at the end counts calls, answers, messages and refusals, and says whether the matcher holds what is open. Of a line that
is followed it says how far the follower is in each partition, whether both ends agree on each order, and whether the line allows
this day, so that no report was lost unnoticed and none was counted twice; or what came first that a line never brings.",
};

/// A script as far as it has been played.
struct Bench {
    play: Play,
}

impl Session for Bench {
    fn line<R: Print + AllocGlobal>(&mut self, rt: &R, line: &[u8]) -> io::Result<()> {
        match self.play.line(rt, line) {
            Ok(_) => Ok(()),
            Err(Failure::Misread(why)) => rt.println(why),
            Err(Failure::Io(error)) => Err(error),
        }
    }

    fn close<R: Print + AllocGlobal>(&mut self, rt: &R) -> io::Result<()> {
        self.play.account(rt)
    }
}

fn main(rt: HostRuntime) -> ExitCode {
    let mut bench = Bench {
        play: Play::new(rt.alloc()),
    };
    let code = console::run(&rt, ABOUT, &mut bench);
    let Bench { play } = bench;
    play.close();
    code
}
