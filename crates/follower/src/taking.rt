// What a follower that is up does with what it hears.
ghost use Rattle.std.specs.Prelude.{◌≡◌, ◌==◌, false, nat_le, Ok};
ghost use Rattle.std.specs.Option.{option_copied};
ghost use Rattle.partitions.specs.PerPartition.{at};
ghost use Rattle.follower.specs.Sides.{is_level};
ghost use Rattle.follower.specs.Numbers.{number_of};
ghost use Rattle.codes.specs.Session.{same_partition};
ghost use Rattle.follower.specs.Following.{download_of, turned, state_for, lived, live_by, folded, no_download, acked, reported, recovered_of, completed, ended, rejected, recovering};

use crate::answer::{Live, Recovered};
use crate::fault::FollowerFault;
use crate::heard::{Heard, NumberedReport};
use crate::line::Line;
use crate::side::State;
use crate::stage::Stage;
use crate::state::Follower;
use codes::session::{AckResponse, Partition, ReportResponse};

fn same(a: Partition, b: Partition) -> bool
    ensures { result ≡ same_partition a b }
{
    a as u8 == b as u8
}

impl Follower {
    // The line is up or lost.
    pub(crate) fn turn(&mut self, up: bool)
        ensures { self.new ≡ turned up self.old }
    {
        self.sides.one.fall();
        self.sides.two.fall();
        self.sides.three.fall();
        self.line = if up {
            Line::Up(Stage::Idle)
        } else {
            Line::Away
        };
    }

    // The state of the partition that a message is for; one without a number is for none.
    fn state_for(&self, heard: &Heard) -> Option<&State>
        ensures { option_copied result ≡ state_for self.now heard.now }
    {
        match heard {
            Heard::Report(partition, _) => Some(&self.sides.at(*partition).state),
            _ => None,
        }
    }

    // Whether a report is at or below its partition's place.
    fn has(&self, partition: Partition, report: &NumberedReport) -> bool
        ensures { result ≡ nat_le (number_of report.now) (at self.now.sides partition).place }
    {
        self.sides.at(partition).place.reaches(&report.number())
    }

    // Folds a report and moves the place to its number; a report that is refused changes nothing.
    fn fold<A: Copy>(
        &mut self,
        partition: Partition,
        report: &NumberedReport,
        answer: A,
    ) -> Result<A, FollowerFault>
        ensures answer { result ≡ (folded answer self.old partition report.now).answer }
        ensures after { self.new ≡ (folded answer self.old partition report.now).after }
    {
        self.standings.fold(partition, report.told)?;
        self.sides.at_mut(partition).place = report.number();
        Ok(answer)
    }

    // A report of a partition that is not level is held, or passes.
    fn lay(&mut self, partition: Partition, report: NumberedReport) -> Live
        requires { is_level (at self.old.sides partition).state ≡ false }
        ensures answer { Ok result ≡ (live_by (at self.old.sides partition).state self.old partition report).answer }
        ensures after { self.new ≡ (live_by (at self.old.sides partition).state self.old partition report).after }
    {
        self.sides.at_mut(partition).state.lay(report)
    }

    // A message that came live, by the state of its partition.
    pub(crate) fn live_heard(&mut self, heard: Heard) -> Result<Live, FollowerFault>
        ensures answer { result ≡ (lived self.old heard).answer }
        ensures after { self.new ≡ (lived self.old heard).after }
    {
        match (self.state_for(&heard), heard) {
            (_, Heard::Report(partition, report)) if self.has(partition, &report) => {
                Ok(Live::Already)
            }
            (Some(State::Level), Heard::Report(partition, report)) => {
                self.fold(partition, &report, Live::Folded)
            }
            (Some(State::Behind(_) | State::Overrun(_)), Heard::Report(partition, report)) => {
                Ok(self.lay(partition, report))
            }
            _ => Ok(Live::Nothing),
        }
    }

    // The download that was asked, or that ran, has ended.
    fn end(&mut self) -> Recovered
        ensures answer { result ≡ Recovered.Ended }
        ensures after { self.new ≡ no_download self.old }
    {
        self.line = Line::Up(Stage::Idle);
        Recovered::Ended
    }

    fn ack(&mut self, response: AckResponse) -> Result<Recovered, FollowerFault>
        ensures answer { result ≡ (acked self.old (download_of self.old) response).answer }
        ensures after { self.new ≡ (acked self.old (download_of self.old) response).after }
    {
        match (self.line.download(), response) {
            (Stage::Asked(partition), AckResponse::Successful) => {
                self.line = Line::Up(Stage::Running(partition));
                Ok(Recovered::Begun)
            }
            (Stage::Asked(_), _) => Ok(self.end()),
            (Stage::Idle | Stage::Running(_), _) => Err(FollowerFault::OutOfTurn),
        }
    }

    fn report(
        &mut self,
        partition: Partition,
        report: NumberedReport,
    ) -> Result<Recovered, FollowerFault>
        ensures answer { result ≡ (reported self.old (download_of self.old) partition report).answer }
        ensures after { self.new ≡ (reported self.old (download_of self.old) partition report).after }
    {
        match self.line.download() {
            Stage::Asked(asked) if !same(asked, partition) => Err(FollowerFault::Partition),
            Stage::Running(running) if !same(running, partition) => Err(FollowerFault::Partition),
            Stage::Running(_) => self.report_of(partition, &report),
            Stage::Idle | Stage::Asked(_) => Err(FollowerFault::OutOfTurn),
        }
    }

    // A report of the download that runs.
    fn report_of(
        &mut self,
        partition: Partition,
        report: &NumberedReport,
    ) -> Result<Recovered, FollowerFault>
        ensures answer { result ≡ (recovered_of self.old partition report.now).answer }
        ensures after { self.new ≡ (recovered_of self.old partition report.now).after }
    {
        if self.has(partition, report) {
            return Ok(Recovered::Already);
        }
        self.fold(partition, report, Recovered::Folded)
    }

    // The download is complete: what is held is folded behind its reports, in a trial that counts only if none of
    // them is refused. The download ends also where the partition stays overrun.
    fn complete(&mut self, partition: Partition) -> Result<Recovered, FollowerFault>
        ensures answer { result ≡ (completed self.old partition).answer }
        ensures after { self.new ≡ (completed self.old partition).after }
    {
        self.trial.copy_from(&self.standings);
        let side = self.sides.at_mut(partition);
        let place = side.fold_held(&mut self.trial, partition)?;
        side.complete(place);
        self.standings.copy_from(&self.trial);
        Ok(self.end())
    }

    fn ended(&mut self, response: ReportResponse) -> Result<Recovered, FollowerFault>
        ensures answer { result ≡ (ended self.old (download_of self.old) response).answer }
        ensures after { self.new ≡ (ended self.old (download_of self.old) response).after }
    {
        match (self.line.download(), response) {
            (Stage::Running(partition), ReportResponse::Complete) => self.complete(partition),
            (Stage::Running(_), _) => Ok(self.end()),
            (Stage::Idle | Stage::Asked(_), _) => Err(FollowerFault::OutOfTurn),
        }
    }

    // A Reject ends what is asked or runs; where nothing is, it is an answer to something else, and is nothing
    // here.
    fn reject(&mut self) -> Result<Recovered, FollowerFault>
        ensures answer { result ≡ (rejected self.old (download_of self.old)).answer }
        ensures after { self.new ≡ (rejected self.old (download_of self.old)).after }
    {
        match self.line.download() {
            Stage::Idle => Ok(Recovered::Nothing),
            Stage::Asked(_) | Stage::Running(_) => Ok(self.end()),
        }
    }

    // A message that came on the recovery channel.
    pub(crate) fn recovered_heard(&mut self, heard: Heard) -> Result<Recovered, FollowerFault>
        ensures answer { result ≡ (recovering self.old heard).answer }
        ensures after { self.new ≡ (recovering self.old heard).after }
    {
        match heard {
            Heard::Report(partition, report) => self.report(partition, report),
            Heard::Ack(response) => self.ack(response),
            Heard::End(response) => self.ended(response),
            Heard::Reject => self.reject(),
            Heard::Nothing => Ok(Recovered::Nothing),
        }
    }
}
