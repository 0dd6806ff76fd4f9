// What a link writes once its Logon is accepted. Each call writes one message to the front of the caller's buffer, and
// says how many bytes it has; those past it stay. A buffer that is too short stays as it is.
ghost use Rattle.std.specs.Prelude.{◌≡◌, pos};

use crate::offline::Offline;
use crate::sending::send;
use order_messages::new_order::NewOrder;
use order_messages::order_cancel_replace_request::OrderCancelReplaceRequest;
use order_messages::order_cancel_request::OrderCancelRequest;
use order_messages::order_mass_cancel_request::OrderMassCancelRequest;
use session_messages::heartbeat::Heartbeat;
use session_messages::logout::Logout;
use texts::fixed::FixedText;
use wire::message::{Message, TooShort};

/// A link whose Logon was accepted.
#[derive(Debug, Drop)]
pub struct Trading {
    pub(crate) comp_id: FixedText<25>,
    // of the Logon Reply
    pub(crate) code: i32,
    ghost accepted: { code ≡ pos 0 },
}

impl Trading {
    ghost use Rattle.wire.specs.declared.message.Message.TheVariants as message;
    ghost use Rattle.link.specs.Requests.{Sent};
    ghost use Rattle.link.specs.Replies.{LoggedOut};

    /// Writes a sign of life to the front of the buffer, and says how many bytes it has; those past it stay. A buffer
    /// that is too short stays as it is.
    pub fn heartbeat(&self, out: &mut [u8]) -> Result<usize, TooShort>
        ensures { Sent (message.Heartbeat (record {})) out.old out.new result }
    {
        send(&Message::Heartbeat(Heartbeat), out)
    }

    /// Writes a new order, as `heartbeat` does its message.
    pub fn new_order(&self, order: &NewOrder<'_>, out: &mut [u8]) -> Result<usize, TooShort>
        ensures { Sent (message.NewOrder order.now) out.old out.new result }
    {
        send(&Message::NewOrder(*order), out)
    }

    /// Writes a request to cancel an order, in the same way.
    pub fn cancel(
        &self,
        request: &OrderCancelRequest<'_>,
        out: &mut [u8],
    ) -> Result<usize, TooShort>
        ensures { Sent (message.OrderCancelRequest request.now) out.old out.new result }
    {
        send(&Message::OrderCancelRequest(*request), out)
    }

    /// Writes a request to change an order's quantity and price, in the same way.
    pub fn replace(
        &self,
        request: &OrderCancelReplaceRequest<'_>,
        out: &mut [u8],
    ) -> Result<usize, TooShort>
        ensures { Sent (message.OrderCancelReplaceRequest request.now) out.old out.new result }
    {
        send(&Message::OrderCancelReplaceRequest(*request), out)
    }

    /// Writes a request to cancel many orders, in the same way.
    pub fn mass_cancel(
        &self,
        request: &OrderMassCancelRequest<'_>,
        out: &mut [u8],
    ) -> Result<usize, TooShort>
        ensures { Sent (message.OrderMassCancelRequest request.now) out.old out.new result }
    {
        send(&Message::OrderMassCancelRequest(*request), out)
    }

    /// Writes a Logout, in the same way, and ends the session. Where the buffer is too short, the link trades on.
    pub fn logout(
        self,
        logout: &Logout<'_>,
        out: &mut [u8],
    ) -> Result<(usize, Offline), (Trading, TooShort)>
        ensures { LoggedOut self logout.now out.old out.new result }
    {
        match send(&Message::Logout(*logout), out) {
            Ok(len) => Ok((len, Offline)),
            Err(short) => Err((self, short)),
        }
    }

    /// The CompID that logged on.
    pub fn comp_id(&self) -> FixedText<25>
        ensures { result ≡ self.now.comp_id }
    {
        self.comp_id
    }

    /// The line was lost.
    pub fn lost(self) -> Offline
        ensures { result ≡ record {} }
    {
        Offline
    }
}
