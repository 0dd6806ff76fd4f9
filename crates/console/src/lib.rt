// What the programs here have in common: a command line, inputs that are read a line at a time, and how a run ends.
#![tactic(auto)]

use clap::builder::ValueParser;
use clap::{Arg, ArgAction, ArgMatches, Command};
use std::alloc::Global;
use std::io::{BufRead, BufReader, Read};
use std::process::ExitCode;
use std::rt::{Clock, Env, Files};
use std::{env, fs, io};

/// What a program says of itself when it is asked for help.
#[derive(Clone, Copy)]
pub struct About {
    pub name: &'static str,
    /// In a line or two: what it reads and what it prints.
    pub summary: &'static str,
    /// The words of its input, each with what it does.
    pub words: &'static str,
}

/// An option by which a program's input is read as it comes, and not by lines.
#[derive(Clone, Copy)]
pub struct Choice {
    pub name: &'static str,
    /// The words that it may be given.
    pub words: &'static [&'static str],
    pub help: &'static str,
}

/// What a program does with its input.
pub trait Session {
    /// Answers one line, whose end is cut off; the line may be any bytes.
    fn line<R: Print + AllocGlobal>(&mut self, rt: &R, line: &[u8]) -> io::Result<()>;

    /// Takes the word of the program's option; from then on its input comes in chunks.
    fn choose(&mut self, _word: &str) {}

    /// Answers some bytes of the input, as many as came at once.
    fn chunk<R: Print + AllocGlobal>(&mut self, _rt: &R, _bytes: &[u8]) -> io::Result<()> {
        Ok(())
    }

    /// Says what is to be said behind the last line.
    fn close<R: Print + AllocGlobal>(&mut self, rt: &R) -> io::Result<()>;
}

/// What a program that reads no input does.
pub trait Task {
    /// Does the work, and prints what comes of it.
    fn work<R: Print + Eprint + Clock + AllocGlobal>(&mut self, rt: &R) -> io::Result<()>;
}

fn bare<'a>(alloc: Global, about: About) -> Command<'a> {
    Command::new(alloc, about.name)
        .about(about.summary)
        .after_help(about.words)
}

fn command<'a>(
    alloc: Global,
    about: About,
    choice: Option<Choice>,
) -> Result<Command<'a>, clap::Error> {
    let file = Arg::new(alloc, "FILE").action(ArgAction::Append).help(
        "a file to read, or - for standard input; with none, standard input is read",
    );
    let command = bare(alloc, about).arg(file)?;
    match choice {
        None => Ok(command),
        Some(choice) => Ok(command.arg(option(alloc, choice))?),
    }
}

fn option<'a>(alloc: Global, choice: Choice) -> Arg<'a> {
    Arg::new(alloc, choice.name)
        .long(choice.name)
        .action(ArgAction::Set)
        .value_name("READER")
        .value_parser(ValueParser::Names(choice.words))
        .help(choice.help)
}

fn parse<'a>(
    alloc: Global,
    about: About,
    choice: Option<Choice>,
    words: &'a [String],
) -> Result<ArgMatches<'a>, clap::Error> {
    command(alloc, about, choice)?.try_get_matches_from(words)
}

/// One input, line by line to its end.
fn feed<R: Print + AllocGlobal, I: Read + Drop, S: Session>(
    rt: &R,
    input: I,
    session: &mut S,
) -> io::Result<()> {
    let mut input = BufReader::new(rt.alloc(), input)?;
    let mut line = Vec::new(rt.alloc());
    for _ in 0..u64::MAX {
        line.clear();
        if input.read_until(b'\n', &mut line)? == 0 {
            break;
        }
        let bytes = line.as_slice();
        session.line(rt, bytes.strip_suffix(b"\n").unwrap_or(bytes))?;
    }
    Ok(())
}

/// One input to its end, in chunks as its bytes come.
fn pour<R: Print + AllocGlobal, I: Read + Drop, S: Session>(
    rt: &R,
    mut input: I,
    session: &mut S,
) -> io::Result<()> {
    let mut chunk = [0; 4096];
    for _ in 0..u64::MAX {
        match input.read(&mut chunk) {
            Ok(0) => break,
            Ok(len) => session.chunk(rt, &chunk[..len])?,
            Err(error) if error.kind() == io::ErrorKind::Interrupted => {}
            Err(error) => return Err(error),
        }
    }
    Ok(())
}

/// One input, in chunks or by lines.
fn take<R: Print + AllocGlobal, I: Read + Drop, S: Session>(
    rt: &R,
    input: I,
    in_chunks: bool,
    session: &mut S,
) -> io::Result<()> {
    if in_chunks {
        pour(rt, input, session)
    } else {
        feed(rt, input, session)
    }
}

/// Each of the named inputs in turn, as if they were one; the first that cannot be opened is told of and ends it.
fn feed_all<R: Print + Eprint + Input + Files + AllocGlobal, S: Session>(
    rt: &R,
    about: About,
    names: &[&str],
    in_chunks: bool,
    session: &mut S,
) -> io::Result<ExitCode> {
    for name in names {
        if *name == "-" {
            take(rt, rt.reader(), in_chunks, session)?;
            continue;
        }
        match fs::open(rt, *name) {
            Ok(file) => take(rt, file, in_chunks, session)?,
            Err(error) => {
                let program = about.name;
                eprintln!(rt; "{program}: cannot read {name}: {error}")?;
                return Ok(ExitCode::FAILURE);
            }
        }
    }
    Ok(ExitCode::SUCCESS)
}

fn play<R: Print + Eprint + Input + Files + Env + AllocGlobal, S: Session>(
    rt: &R,
    about: About,
    choice: Option<Choice>,
    session: &mut S,
) -> io::Result<ExitCode> {
    let words: Vec<String> = env::args(rt)?.collect(rt.alloc())?;
    let matches = match parse(rt.alloc(), about, choice, &words) {
        Ok(matches) => matches,
        Err(error) => {
            error.print(rt)?;
            return Ok(ExitCode::from(error.exit_code() as u8));
        }
    };
    let chosen = match choice {
        None => None,
        Some(choice) => matches.get_str(choice.name),
    };
    if let Some(word) = chosen {
        session.choose(word);
    }
    let in_chunks = chosen.is_some();
    let code = match matches.get_strs("FILE") {
        Some(names) => feed_all(rt, about, names, in_chunks, session)?,
        None => {
            take(rt, rt.reader(), in_chunks, session)?;
            ExitCode::SUCCESS
        }
    };
    session.close(rt)?;
    Ok(code)
}

fn perform<R: Print + Eprint + Env + Clock + AllocGlobal, T: Task>(
    rt: &R,
    about: About,
    task: &mut T,
) -> io::Result<ExitCode> {
    let words: Vec<String> = env::args(rt)?.collect(rt.alloc())?;
    if let Err(error) = bare(rt.alloc(), about).try_get_matches_from(words.as_slice()) {
        error.print(rt)?;
        return Ok(ExitCode::from(error.exit_code() as u8));
    }
    task.work(rt)?;
    Ok(ExitCode::SUCCESS)
}

/// How a run ends: an error is told in a sentence, with status 1. That nobody reads the output any more is no error.
fn ended<R: Eprint>(rt: &R, about: About, outcome: io::Result<ExitCode>) -> ExitCode {
    match outcome {
        Ok(code) => code,
        Err(error) if error.kind() == io::ErrorKind::BrokenPipe => ExitCode::SUCCESS,
        Err(error) => {
            let program = about.name;
            let _ = eprintln!(rt; "{program}: {error}");
            ExitCode::FAILURE
        }
    }
}

/// Runs a program: `--help` is answered and a command line that is not understood gets its usage and status 2; else
/// each input is fed to the session, a line at a time.
pub fn run<R: Print + Eprint + Input + Files + Env + AllocGlobal, S: Session>(
    rt: &R,
    about: About,
    session: &mut S,
) -> ExitCode {
    let outcome = play(rt, about, None, session);
    ended(rt, about, outcome)
}

/// The same of a program with an option: where it is given, the session takes its word and then its input in chunks.
pub fn run_with<R: Print + Eprint + Input + Files + Env + AllocGlobal, S: Session>(
    rt: &R,
    about: About,
    choice: Choice,
    session: &mut S,
) -> ExitCode {
    let outcome = play(rt, about, Some(choice), session);
    ended(rt, about, outcome)
}

/// The same of a program that reads no input.
pub fn run_task<R: Print + Eprint + Env + Clock + AllocGlobal, T: Task>(
    rt: &R,
    about: About,
    task: &mut T,
) -> ExitCode {
    let outcome = perform(rt, about, task);
    ended(rt, about, outcome)
}
