// Missed Message Request: type M, 9 bytes.
ghost use Rattle.std.specs.Prelude.{◌≡◌, length, refl};
ghost use Rattle.layout.specs.Layout.{all_good};
ghost use Rattle.layout.specs.Shapes.{laid};
ghost use Rattle.session_messages.specs.declared.missed_message_request.TheConstants.{LETTER, TABLE, TOTAL};
ghost use Rattle.session_messages.specs.Published.{missed_message_request_published};

use layout::put::{put_i8, put_sequence};
use layout::sequence::LastSequence;
use layout::{Field, Form, Framed, Layout, Reader, Shape};

/// Asks for a download of the reports behind the last one seen.
#[derive(Clone, Copy, Debug)]
pub struct MissedMessageRequest {
    /// Any partition may be named, also one that there is none of.
    pub partition: i8,
    /// The number of the last report seen, 0 for none.
    pub last: LastSequence,
}

const LETTER: u8 = b'M';

const TOTAL: u16 = 9;

const TABLE: [Field; 2] = [
    Field::Always(4, Form::Int8),
    Field::Always(5, Form::Sequence),
];

impl Layout for MissedMessageRequest {
    ghost shape = { laid LETTER TOTAL TABLE };

    ghost published = { missed_message_request_published };

    ghost fits = { refl };

    ghost as_published = { refl };

    fn shape() -> Shape {
        Shape::new(LETTER, TOTAL, &TABLE)
    }

    #[tactic(auto, unfolding(layout::specs::Layout::all_good))]
    fn good(r: &Reader<'_>) -> bool
        requires { length r.now.src.now ≡ TOTAL }
        ensures { result ≡ all_good TABLE r.now.src.now }
    {
        r.is_sequence(5)
    }
}

impl<'a> Framed<'a> for MissedMessageRequest {
    ghost use Rattle.session_messages.specs.Session.{missed_message_request_contents, missed_message_request_places};

    ghost contents = { λ m. missed_message_request_contents m };

    ghost places = { λ m. missed_message_request_places m };

    fn fields(r: &Reader<'a>) -> Self {
        MissedMessageRequest {
            partition: r.i8(4),
            last: r.sequence(5),
        }
    }

    fn put(&self, out: &mut [u8]) {
        put_i8(out, 4, &self.partition);
        put_sequence(out, 5, &self.last);
    }
}
