// The drill: pulls the cable behind each call of a script in turn, has both ends recover, and prints what came of it.
#![tactic(auto)]

mod run;
mod script;
mod silent;

use crate::run::run;
use crate::script::Script;
use bench_account::cut::{Drilled, HEADING};
use bench_play::failure::Failure;
use console::{About, Session};
use std::io;
use std::process::ExitCode;

const ABOUT: About = About {
    name: "drill",
    summary: "Plays a script of bench again and again, each time anew and one call further, and each time pulls the desk's cable behind the last call. Then the line is logged on again and the desk catches up; the table says what was lost with the cable, what came again, and whether both ends agree.",
    words: "The script is one of bench, with a line 'follow LINE' and a line 'start'; 'bench --help' has its words. Each line behind 'start' that
calls the gateway or the desk, or does something with the cable, is a call. What a script prints is thrown away.

A run: gateway and desk start anew, the script is played up to a call, and the cable is pulled. The line is logged on again. What
was under way comes late; the desk downloads each partition; and all that was under way comes late once more, so that no report
of it comes only once. Then the desk's table is compared with the gateway's. The table's columns:

  cut          which run it is
  line, after  the line of the script behind which the cable is pulled, and what it says
  under way    messages that the gateway had sent live, and that had not come to the desk: they are lost with the cable
  recovered    the same of the recovery channel, where the script was amid a download
  held         reports that came late before the downloads: the desk lays them aside until it knows what comes before them; of
               what passes, once 32 of a partition are laid aside, it keeps the highest number alone
  folded       reports that the desk took into its table, each of them new to it
  came again   reports that came although the desk had them in its table: it knows them by their numbers, and they change nothing
  orders       orders of the desk that were then compared
  agree        yes: each partition is level, and both ends have the same orders with the same status, shares executed and open.
               no: the line was refused, or a partition is not level since the venue grants no more downloads that day, or an order
               differs, or one end does not have it

The last line counts the runs and those that agree. The status is 0 if all do, 1 if not or if the script has a mistake, which is
told in one line.",
};

/// A drill and its script.
#[derive(Drop)]
struct Drill {
    script: Script,
    passes: bool,
}

impl Drill {
    // A line for each run, and the count of them.
    fn table<R: Print + AllocGlobal>(&mut self, rt: &R) -> Result<(), Failure> {
        rt.println(HEADING)?;
        let mut drilled = Drilled::new();
        for (place, line) in self.script.calls().iter().enumerate() {
            let cut = run(rt.alloc(), &self.script, place.saturating_add(1), *line)?;
            rt.println(cut)?;
            drilled.count(cut.verdict);
        }
        rt.println(drilled)?;
        self.passes = drilled.passes();
        Ok(())
    }
}

impl Session for Drill {
    fn line<R: Print + AllocGlobal>(&mut self, rt: &R, line: &[u8]) -> io::Result<()> {
        self.script.push(rt.alloc(), line)?;
        Ok(())
    }

    fn close<R: Print + AllocGlobal>(&mut self, rt: &R) -> io::Result<()> {
        self.passes = false;
        if let Err(mistake) = self.script.rehearse(rt.alloc())? {
            return rt.println(mistake);
        }
        match self.table(rt) {
            Ok(()) => Ok(()),
            Err(Failure::Misread(why)) => rt.println(why),
            Err(Failure::Io(error)) => Err(error),
        }
    }
}

fn main(rt: HostRuntime) -> ExitCode {
    let mut drill = Drill {
        script: Script::new(rt.alloc()),
        passes: true,
    };
    let code = console::run(&rt, ABOUT, &mut drill);
    if drill.passes {
        code
    } else {
        ExitCode::FAILURE
    }
}
