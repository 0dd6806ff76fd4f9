// A report as the bytes of its message, and back.
ghost use Rattle.std.specs.Prelude.{◌≡◌, ℕ, ◌^◌, ◌<◌, ◌≤◌, List, length, take};
ghost use Rattle.limits.specs.declared.TheConstants.{MESSAGE_BYTES};
ghost use Rattle.report_messages.specs.Telling.{report_bytes};
ghost use Rattle.report_messages.specs.Told.{ReportTold};
ghost use Rattle.reports.specs.declared.report.Report.{Report as Reported};

use codes::session::Partition;
use reports::report::Report;

/// A report's number in its partition, which a signed field of four bytes holds.
#[derive(Clone, Copy)]
pub struct Number {
    pub value: u32,
    ghost fits: { value < 2 ^ 31 },
}

/// `decoded` is the report that bytes hold.
pub trait Codec {
    ghost decoded: { List ℕ → Reported };

    /// Writes the message of a report under its number to the front of a buffer, and answers how many bytes it takes.
    fn encode(&self, partition: Partition, number: Number, report: Report, out: &mut [u8]) -> usize
        requires { MESSAGE_BYTES ≤ length out.old }
        ensures bytes { take result out.new ≡ report_bytes partition number.value report }
        ensures short { result ≤ MESSAGE_BYTES }
        ensures told { ReportTold partition number.value report }
        ensures back { decoded (report_bytes partition number.value report) ≡ report };

    /// The report that bytes hold.
    fn decode(&self, bytes: &[u8]) -> Report
        ensures { result ≡ decoded bytes.now };
}
