// A message, and that of a report, written to the front of a caller's buffer that has room for any.
ghost use Rattle.std.specs.Prelude.{◌<◌, ◌≤◌, length};
ghost use Rattle.limits.specs.declared.TheConstants.{MESSAGE_BYTES as LONGEST};
ghost use Rattle.wire.specs.Messages.{written, Holdable, GivenBack};
ghost use Rattle.report_messages.specs.declared.telling.TheConstants.{NUMBERS};
ghost use Rattle.report_messages.specs.Telling.{report_bytes};
ghost use Rattle.report_messages.specs.Sent.{Sent};
ghost use Rattle.report_messages.specs.Told.{ReportTold};

use crate::telling::Telling;
use codes::session::Partition;
use reports::report::Report;
use wire::message::{Message, write};

/// Writes a message to the front of the buffer, and says how many bytes it has; those past it stay.
#[tactic(auto, using(crate::proofs::Heard::sent))]
pub fn send(message: &Message<'_>, out: &mut [u8]) -> usize
    requires { LONGEST ≤ length out.old }
    ensures sent { Sent (written message.now) out.old out.new result }
    ensures short { result ≤ LONGEST }
    ensures held { Holdable message.now }
    ensures back { GivenBack message.now }
{
    write(message, out).unwrap()
}

fn tell(telling: &Telling, out: &mut [u8]) -> usize
    requires { LONGEST ≤ length out.old }
    ensures sent { Sent (report_bytes telling.now.partition telling.now.number telling.now.report)
        out.old out.new result }
    ensures short { result ≤ LONGEST }
    ensures told { ReportTold telling.now.partition telling.now.number telling.now.report }
{
    send(&telling.message(), out)
}

/// Writes the message of a report under its number in the same way.
#[tactic(auto, using(crate::proofs::Heard::same_told))]
pub fn write_report(partition: Partition, number: u32, report: Report, out: &mut [u8]) -> usize
    requires room { LONGEST ≤ length out.old }
    requires few { number < NUMBERS }
    ensures sent { Sent (report_bytes partition number report) out.old out.new result }
    ensures short { result ≤ LONGEST }
    ensures told { ReportTold partition number report }
{
    let telling = Telling::new(partition, number, report).unwrap();
    tell(&telling, out)
}
