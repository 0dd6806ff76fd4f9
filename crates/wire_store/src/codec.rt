// A report as the bytes of its message, and back.
ghost use Rattle.std.specs.Prelude.{◌≡◌};
ghost use Rattle.wire_store.specs.Told.{decoded, nothing_told};

use byte_store::codec::{Codec, Number};
use codes::session::Partition;
use refusals::Refusal;
use report_messages::back::report_of;
use report_messages::sending::write_report;
use reports::report::{CancelReject, Report};
use texts::fixed::FixedText;
use texts::values::Time;
use wire::kinds::Channel;
use wire::message::read;

/// Reports as a follower is sent them.
#[derive(Clone, Copy, Drop)]
pub struct WireCodec;

// What bytes hold that are no report: a store has none.
fn nothing_told() -> Report
    ensures { result ≡ nothing_told }
{
    Report::CancelReject(CancelReject {
        client: FixedText::empty(),
        reason: Refusal::NoSuchOrder,
        time: Time {
            seconds: 0,
            microseconds: 0,
        },
    })
}

#[tactic(auto, using(crate::proofs::Back::refused))]
fn report_in(bytes: &[u8]) -> Report
    ensures { result ≡ decoded bytes.now }
{
    match read(Channel::Follower, bytes) {
        Ok(message) => report_of(&message).unwrap_or(nothing_told()),
        Err(_) => nothing_told(),
    }
}

impl Codec for WireCodec {
    ghost decoded = { decoded };

    #[tactic(auto, using(crate::proofs::Back::told_back))]
    fn encode(
        &self,
        partition: Partition,
        number: Number,
        report: Report,
        out: &mut [u8],
    ) -> usize {
        write_report(partition, number.value, report, out)
    }

    fn decode(&self, bytes: &[u8]) -> Report {
        report_in(bytes)
    }
}
