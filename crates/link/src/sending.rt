// A message for a gateway, written to the front of a caller's buffer.
ghost use Rattle.std.specs.Prelude.{◌≡◌, Some};
ghost use Rattle.wire.specs.declared.kinds.Channel.TheVariants.{RealTime};
ghost use Rattle.wire.specs.Kinds.{letter_of, takes};
ghost use Rattle.wire.specs.Messages.{kind_of};
ghost use Rattle.link.specs.Requests.{Sent};

use wire::message::{Message, TooShort, write};

#[tactic(auto, using(crate::proofs::Reading::heard))]
pub(crate) fn send(message: &Message<'_>, out: &mut [u8]) -> Result<usize, TooShort>
    requires { takes RealTime (letter_of (kind_of message.now)) ≡ Some (kind_of message.now) }
    ensures { Sent message.now out.old out.new result }
{
    write(message, out)
}
