// A desk's link at work: it takes a gateway's answer, and writes an order once it may.
#![tactic(auto)]

ghost use Rattle.std.specs.Prelude.{◌≡◌, ◌↔◌, ◌≤◌, length, Ok, IsTrue, IfSome, IfNone};
ghost use Rattle.wire.specs.declared.message.TheConstants.{BUFFER};
ghost use Rattle.wire.specs.declared.message.Message.TheVariants as message;
ghost use Rattle.link.specs.Replies.{Accepted};
ghost use Rattle.link.specs.Requests.{Sent};

use answers::answer::{Admission, Answer};
use link::awaiting::Awaiting;
use link::offline::Offline;
use order_messages::new_order::NewOrder;
use session_messages::logon::Logon;

#[cfg(test)]
mod days;

/// Logs on with one buffer, and where the reply accepts that, writes an order to another.
pub fn first_order(
    logon: &Logon<'_>,
    asked: &mut [u8],
    reply: &[u8],
    order: &NewOrder<'_>,
    out: &mut [u8],
) -> Option<usize>
    ensures accepted { IfSome result (λ _. Accepted reply.now) }
    ensures wrote { IfSome result (λ n. Sent (message.NewOrder order.now) out.old out.new (Ok n)) }
    ensures none { IfNone result (out.new ≡ out.old) }
{
    let (_, awaiting) = Offline.logon(logon, asked).ok()?;
    let trading = awaiting.reply(reply).ok()?;
    trading.new_order(order, out).ok()
}

/// Takes a gateway's answer to a Logon, by its bytes. The link trades exactly where the gateway accepts.
#[tactic(auto, using(crate::proofs::Both::trades))]
pub fn answered(link: Awaiting, admission: Admission, out: &mut [u8]) -> bool
    requires { BUFFER ≤ length out.old }
    ensures { IsTrue result ↔ (admission ≡ Admission.Accepted) }
{
    let len = Answer::LogonReply(admission).write(out);
    link.reply(&out[..len]).is_ok()
}
