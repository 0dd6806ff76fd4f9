// The request that asks for a download.
ghost use Rattle.std.specs.Prelude.{◌≡◌, ◌≤◌, ◌++◌, length, drop, pos};
ghost use Rattle.codes.specs.Session.{partition_code};
ghost use Rattle.wire.specs.declared.kinds.Kind.TheVariants.{MissedMessageRequest as Request};
ghost use Rattle.wire.specs.Kinds.{total_of};
ghost use Rattle.wire.specs.declared.message.TheConstants.{BUFFER};
ghost use Rattle.follower.specs.Asking.{request, ReadBack};

use crate::number::Number;
use codes::session::Partition;
use session_messages::missed_message_request::MissedMessageRequest;
use wire::message::{Message, write};

// As the message has it, a signed byte.
fn number(partition: Partition) -> i8
    ensures { result ≡ pos (partition_code partition) }
{
    match partition {
        Partition::One => 1,
        Partition::Two => 2,
        Partition::Three => 3,
    }
}

fn request(partition: Partition, place: &Number) -> MissedMessageRequest
    ensures partition { result.partition ≡ pos (partition_code partition) }
    ensures last { result.last.value ≡ place.now }
{
    MissedMessageRequest {
        partition: number(partition),
        last: place.sequence(),
    }
}

// Writes the request for a partition's reports above a place.
#[tactic(auto, using(crate::proofs::Requests::wrote, crate::proofs::Requests::read_back))]
pub(crate) fn write_request(partition: Partition, place: &Number, out: &mut [u8]) -> usize
    requires { BUFFER ≤ length out.old }
    ensures length { result ≡ total_of Request }
    ensures bytes { out.new ≡ request partition place.now ++ drop (total_of Request) out.old }
    ensures back { ReadBack partition place.now }
{
    let message = Message::MissedMessageRequest(request(partition, place));
    write(&message, out).unwrap()
}
