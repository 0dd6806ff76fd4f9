// Reject: type 3, 59 bytes.
ghost use Rattle.std.specs.Prelude.{◌≡◌, length, refl};
ghost use Rattle.layout.specs.Layout.{all_good};
ghost use Rattle.layout.specs.Shapes.{Shaped, laid};
ghost use Rattle.session_messages.specs.declared.reject.TheConstants.{LETTER, TABLE, TOTAL};
ghost use Rattle.session_messages.specs.Published.{reject_published};

use layout::put::{put_i32, put_text, put_u8};
use layout::{Field, Form, Framed, Layout, Reader, Shape};
use texts::text::Text;

/// A message that was not taken, by its type and its Client Order ID where they are known.
#[derive(Clone, Copy, Debug)]
pub struct Reject<'a> {
    /// Why: the number of the check that the message failed.
    pub code: i32,
    pub reason: Text<'a, 30>,
    /// The type of the message, or 0.
    pub message_type: u8,
    pub client_order_id: Text<'a, 20>,
}

const LETTER: u8 = b'3';

const TOTAL: u16 = 59;

const TABLE: [Field; 4] = [
    Field::Always(4, Form::Int32),
    Field::Always(8, Form::Text(30)),
    Field::Always(38, Form::Alpha),
    Field::Always(39, Form::Text(20)),
];

impl Layout for Reject<'_> {
    ghost shape = { laid LETTER TOTAL TABLE };

    ghost published = { reject_published };

    ghost fits = { refl };

    ghost as_published = { refl };

    fn shape() -> Shape
        ensures { Shaped (laid LETTER TOTAL TABLE) result }
    {
        Shape::new(LETTER, TOTAL, &TABLE)
    }

    #[tactic(auto, unfolding(layout::specs::Layout::all_good))]
    fn good(r: &Reader<'_>) -> bool
        requires { length r.now.src.now ≡ TOTAL }
        ensures { result ≡ all_good TABLE r.now.src.now }
    {
        r.is_text(8, 30) & r.is_text(39, 20)
    }
}

impl<'a> Framed<'a> for Reject<'a> {
    ghost use Rattle.session_messages.specs.Session.{reject_contents, reject_places};

    ghost contents = { λ m. reject_contents m };

    ghost places = { λ m. reject_places m };

    fn fields(r: &Reader<'a>) -> Self {
        Reject {
            code: r.i32(4),
            reason: r.text(8),
            message_type: r.u8(38),
            client_order_id: r.text(39),
        }
    }

    fn put(&self, out: &mut [u8]) {
        put_i32(out, 4, &self.code);
        put_text(out, 8, &self.reason);
        put_u8(out, 38, self.message_type);
        put_text(out, 39, &self.client_order_id);
    }
}
