// A script as far as it has been played: what both ends are started with, the two ends, and the line that is followed.
use crate::came::Came;
use crate::day::Day;
use crate::failure::Failure;
use crate::opening::{Engine, Opening, Shelf};
use crate::preview::preview;
use crate::ruling::Ruling;
use crate::state::{State, reader};
use crate::{asking, cable, calls, show, sides};
use bench_account::answer::Answer;
use bench_account::verdict::Verdict;
use bench_words::bytes::Bytes;
use bench_words::command;
use bench_words::command::{Cable, Command, Setup};
use bench_words::line::{is_skipped, parted};
use bench_words::misread::Misread;
use both_ends::call::Call;
use configuration::config::StartRefusal;
use inspector::answer::answer_message;
use std::alloc::{AllocError, Global};
use std::{io, mem};

/// What a line was.
#[derive(Clone, Copy, Debug, PartialEq)]
pub enum Played {
    /// A call of the started gateway or of its follower.
    Call,
    /// The start of a gateway, which was refused by the check of this number.
    Refused(u8),
    /// Anything else, or nothing.
    Other,
}

/// A script as far as it has been played.
#[derive(Drop)]
pub struct Play {
    opening: Opening,
    day: Option<Day>,
    /// The line that is followed.
    line: Option<usize>,
    pub state: State,
}

fn show_message<R: Print + AllocGlobal>(rt: &R, bytes: Bytes<'_>) -> io::Result<()> {
    let bytes = bytes.to_vec(rt.alloc())?;
    let shown = answer_message(rt.alloc(), reader(&bytes), &bytes)?;
    rt.println(shown.text.as_str())
}

// A line that both ends answer.
fn obey<R: Print + AllocGlobal>(
    rt: &R,
    state: &mut State,
    day: &mut Day,
    order: Command<'_>,
) -> Result<(), Failure> {
    match order {
        Command::Call(call) => {
            let call = calls::called(rt.alloc(), call)?;
            let _more = calls::make(rt, state, day, call)?;
        }
        Command::Request(line, request) => asking::ask(rt, state, day, line, request)?,
        Command::Preview(line, bytes) => preview(rt, day, line, bytes.to_vec(rt.alloc())?)?,
        Command::PreviewRequest(line, request) => asking::foresee(rt, day, line, request)?,
        Command::Run => asking::run(rt, state, day)?,
        Command::Drain(line) => asking::drain(rt, state, day, line)?,
        Command::Download(line) => asking::download(rt, state, day, line)?,
        Command::Midpoint(instrument, price) => {
            calls::midpoint(rt, state, day, instrument, price)?;
        }
        Command::Orders => day.show_orders(rt)?,
        _ => {}
    }
    Ok(())
}

// A line that the desk of the line that is followed answers.
fn obey_desk<R: Print + AllocGlobal>(
    rt: &R,
    state: &mut State,
    day: &mut Day,
    line: usize,
    order: Command<'_>,
) -> Result<(), Failure> {
    match order {
        Command::Desk(call) => {
            let call = calls::followed(rt.alloc(), call)?;
            let _more = calls::make(rt, state, day, call)?;
        }
        Command::Cable(action) => cable::play(rt, state, day, line, action)?,
        Command::Follower => sides::show(rt, day)?,
        _ => {}
    }
    Ok(())
}

impl Play {
    /// No line has been played.
    pub fn new(heap: Global) -> Play {
        Play {
            opening: Opening::new(heap),
            day: None,
            line: None,
            state: State::new(heap),
        }
    }

    /// Ends it. Each part is let go by a call: where a value goes at the end of a scope, all that it holds is taken apart in
    /// that function's proof.
    pub fn close(self) {
        let Play {
            opening,
            day,
            line: _,
            state,
        } = self;
        drop(opening);
        drop(day);
        drop(state);
    }

    /// Plays a line, and says what it was.
    pub fn line<R: Print + AllocGlobal>(&mut self, rt: &R, line: &[u8]) -> Result<Played, Failure> {
        let words = match parted(rt.alloc(), line)? {
            Some(words) => words,
            None => return Err(Failure::Misread(Misread::Text)),
        };
        if is_skipped(&words) {
            return Ok(Played::Other);
        }
        match command::read(&words) {
            Ok(Command::Setup(setup)) => self.set_up(rt, setup),
            Ok(order) => {
                self.play(rt, order)?;
                Ok(self.kind(order))
            }
            Err(why) => Err(Failure::Misread(why)),
        }
    }

    fn kind(&self, order: Command<'_>) -> Played {
        if self.day.is_some() && order.is_call() {
            Played::Call
        } else {
            Played::Other
        }
    }

    fn refuse<R: Print>(&mut self, rt: &R, refusal: StartRefusal) -> Result<Played, Failure> {
        match refusal.number() {
            Some(number) => {
                self.state.tell(rt, Answer::Refused(number))?;
                Ok(Played::Refused(number))
            }
            None => Err(Failure::from(AllocError)),
        }
    }

    // (the day before is let go by a call, for the same reason)
    fn begin(&mut self, day: Day) {
        drop(mem::replace(&mut self.day, Some(day)));
    }

    fn start<R: Print + AllocGlobal>(&mut self, rt: &R) -> Result<Played, Failure> {
        let opening = mem::replace(&mut self.opening, Opening::new(rt.alloc()));
        match Day::start(rt.alloc(), opening) {
            Ok(day) => {
                self.begin(day);
                self.state.tell(rt, Answer::Started)?;
                Ok(Played::Other)
            }
            Err(refusal) => self.refuse(rt, refusal),
        }
    }

    // A line of the configuration.
    fn set_up<R: Print + AllocGlobal>(
        &mut self,
        rt: &R,
        setup: Setup<'_>,
    ) -> Result<Played, Failure> {
        if self.day.is_some() {
            return Err(Failure::Misread(Misread::Started));
        }
        match setup {
            Setup::CompId {
                name,
                password,
                firm,
                ends,
            } => self.opening.comp_id(name, password, firm, ends)?,
            Setup::Instrument {
                symbol,
                segment,
                partition,
            } => self.opening.instrument(symbol, segment, partition)?,
            Setup::Lit => self.opening.engine(Engine::Lit),
            Setup::Dark => self.opening.engine(Engine::Dark),
            Setup::Pair => self.opening.engine(Engine::Pair),
            Setup::Tape(tape) => {
                let lines = tape.lines(rt.alloc())?;
                self.opening.engine(Engine::Tape(lines));
            }
            Setup::Records(places) => self.opening.shelf(Shelf::Records(places)),
            Setup::Wire(bytes) => self.opening.shelf(Shelf::Wire(bytes)),
            Setup::Follow(line) => {
                self.line = Some(line);
                self.state.under_way.follow(line);
            }
            Setup::Start => return self.start(rt),
        }
        Ok(Played::Other)
    }

    fn play<R: Print + AllocGlobal>(&mut self, rt: &R, order: Command<'_>) -> Result<(), Failure> {
        match order {
            Command::Show(bytes) => show_message(rt, bytes)?,
            Command::Clock(time) => self.state.clock = time,
            Command::Print(style) => self.state.style = style,
            Command::Desk(_) | Command::Cable(_) | Command::Follower => {
                return self.play_desk(rt, order);
            }
            _ => match &mut self.day {
                Some(day) => return obey(rt, &mut self.state, day, order),
                None => return Err(Failure::Misread(Misread::NotStarted)),
            },
        }
        Ok(())
    }

    fn play_desk<R: Print + AllocGlobal>(
        &mut self,
        rt: &R,
        order: Command<'_>,
    ) -> Result<(), Failure> {
        let Some(line) = self.line else {
            return Err(Failure::Misread(Misread::NoFollower));
        };
        match &mut self.day {
            Some(day) => obey_desk(rt, &mut self.state, day, line, order),
            None => Err(Failure::Misread(Misread::NotStarted)),
        }
    }

    /// Does what a person does with the line that is followed.
    pub fn act<R: Print + AllocGlobal>(&mut self, rt: &R, action: Cable) -> Result<(), Failure> {
        self.play_desk(rt, Command::Cable(action))
    }

    // What both ends came to.
    fn close_day<R: Print + AllocGlobal>(
        rt: &R,
        day: &mut Day,
        line: Option<usize>,
    ) -> io::Result<()> {
        day.show_close(rt)?;
        if let Some(line) = line {
            sides::close(rt, day, line)?;
            rt.println(Ruling::of_day(day, line)?)?;
        }
        Ok(())
    }

    /// The account of what was played.
    pub fn account<R: Print + AllocGlobal>(&mut self, rt: &R) -> io::Result<()> {
        rt.println(self.state.account)?;
        for number in 0..=u8::MAX {
            let count = self.state.account.refused_by(number);
            if count > 0 {
                println!(rt; "refused {number}: {count}")?;
            }
        }
        match &mut self.day {
            Some(day) => Play::close_day(rt, day, self.line),
            None => Ok(()),
        }
    }

    /// Whether a day was started.
    pub fn is_started(&self) -> bool {
        self.day.is_some()
    }

    /// Whether a desk follows the day.
    pub fn is_followed(&self) -> bool {
        self.line.is_some()
    }

    /// Whether the follower is up.
    pub fn is_up(&self) -> bool {
        match &self.day {
            Some(day) => day.follower().is_up(),
            None => false,
        }
    }

    /// Whether the line that is followed is a CompID's.
    pub fn is_somebody(&self) -> bool {
        match (&self.day, self.line) {
            (Some(day), Some(line)) => line < day.participants().len(),
            _ => false,
        }
    }

    /// From now on the reports that come to the follower are counted anew.
    pub fn count_anew(&mut self) {
        self.state.came = Came::new();
    }

    /// These messages come live to the follower, from the connection before.
    pub fn late<R: Print + AllocGlobal>(&mut self, rt: &R, messages: &[Vec<u8>]) -> io::Result<()> {
        let Some(day) = &mut self.day else {
            return Ok(());
        };
        for message in messages {
            let message = Vec::from_slice(rt.alloc(), message)?;
            let _more = calls::make(rt, &mut self.state, day, Call::Live(message))?;
        }
        Ok(())
    }

    /// How many orders of the follower's CompID are compared, and whether both ends agree.
    pub fn verdict(&mut self, heap: Global) -> Result<(usize, Verdict), AllocError> {
        match (&mut self.day, self.line) {
            (Some(day), Some(line)) => sides::verdict(heap, day, line),
            _ => Ok((0, Verdict::NoLine)),
        }
    }
}
