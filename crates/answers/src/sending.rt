// The end of a download, written to the front of a caller's buffer that has room for any message.
ghost use Rattle.std.specs.Prelude.{◌≤◌, length};
ghost use Rattle.wire.specs.declared.message.TheConstants.{BUFFER};
ghost use Rattle.report_messages.specs.Sent.{Sent};
ghost use Rattle.answers.specs.Bytes.{end_bytes};
ghost use Rattle.answers.specs.Told.{EndTold};

use codes::session::ReportResponse;
use report_messages::sending::send;
use session_messages::missed_message_report::MissedMessageReport;
use wire::message::Message;

/// Writes the end of a download to the front of the buffer, and says how many bytes it has; those past it stay.
#[tactic(auto, using(crate::proofs::Ending::end_told))]
pub fn write_end(response: ReportResponse, out: &mut [u8]) -> usize
    requires { BUFFER ≤ length out.old }
    ensures sent { Sent (end_bytes response) out.old out.new result }
    ensures told { EndTold response }
{
    let end = MissedMessageReport { response };
    send(&Message::MissedMessageReport(end), out)
}
