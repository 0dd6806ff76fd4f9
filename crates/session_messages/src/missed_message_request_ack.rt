// Missed Message Request Ack: type N, 5 bytes.
ghost use Rattle.std.specs.Prelude.{◌≡◌, length, refl};
ghost use Rattle.layout.specs.Layout.{all_good};
ghost use Rattle.layout.specs.Shapes.{laid};
ghost use Rattle.session_messages.specs.declared.missed_message_request_ack.TheConstants.{LETTER, TABLE, TOTAL};
ghost use Rattle.session_messages.specs.Published.{missed_message_request_ack_published};

use codes::lists::Codes;
use codes::session::AckResponse;
use layout::put::put_code;
use layout::{Field, Form, Framed, Layout, Reader, Shape};

/// Whether a download begins.
#[derive(Clone, Copy, Debug)]
pub struct MissedMessageRequestAck {
    pub response: AckResponse,
}

const LETTER: u8 = b'N';

const TOTAL: u16 = 5;

const TABLE: [Field; 1] = [Field::Always(4, Form::Code(Codes::AckResponses))];

impl Layout for MissedMessageRequestAck {
    ghost shape = { laid LETTER TOTAL TABLE };

    ghost published = { missed_message_request_ack_published };

    ghost fits = { refl };

    ghost as_published = { refl };

    fn shape() -> Shape {
        Shape::new(LETTER, TOTAL, &TABLE)
    }

    #[tactic(auto, unfolding(layout::specs::Layout::all_good))]
    fn good(r: &Reader<'_>) -> bool
        requires { length r.now.src.now ≡ TOTAL }
        ensures { result ≡ all_good TABLE r.now.src.now }
    {
        r.is_code::<AckResponse>(4)
    }
}

impl<'a> Framed<'a> for MissedMessageRequestAck {
    ghost use Rattle.session_messages.specs.Session.{missed_message_request_ack_contents, missed_message_request_ack_places};

    ghost contents = { λ m. missed_message_request_ack_contents m };

    ghost places = { λ m. missed_message_request_ack_places m };

    fn fields(r: &Reader<'a>) -> Self {
        MissedMessageRequestAck {
            response: r.code(4),
        }
    }

    fn put(&self, out: &mut [u8]) {
        put_code(out, 4, &self.response);
    }
}
