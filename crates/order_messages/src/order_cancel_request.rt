// Order Cancel Request: type F, 73 bytes.
ghost use Rattle.std.specs.Prelude.{◌≡◌, length, refl};
ghost use Rattle.layout.specs.Layout.{all_good};
ghost use Rattle.layout.specs.Shapes.{Shaped, laid};
ghost use Rattle.order_messages.specs.declared.order_cancel_request.TheConstants.{LETTER, TABLE, TOTAL};
ghost use Rattle.order_messages.specs.Published.{order_cancel_request_published};

use codes::lists::Codes;
use codes::order::{Book, Side};
use layout::put::{put_blank, put_code, put_name, put_order, put_text};
use layout::{Field, Form, Framed, Layout, Reader, Shape};
use texts::identifiers::OrderId;
use texts::text::{Name, Text};

/// Cancels an order, named by its Order ID or its current Client Order ID.
#[derive(Clone, Copy, Debug)]
pub struct OrderCancelRequest<'a> {
    /// The identifier of this request.
    pub client_order_id: Name<'a, 20>,
    /// The order's Client Order ID, or empty.
    pub original_id: Text<'a, 20>,
    pub order_id: Option<OrderId>,
    pub symbol: Text<'a, 6>,
    pub side: Side,
    pub book: Book,
}

const LETTER: u8 = b'F';

const TOTAL: u16 = 73;

const TABLE: [Field; 7] = [
    Field::Always(4, Form::Name(20)),
    Field::Always(24, Form::Text(20)),
    Field::Always(44, Form::Order),
    Field::Always(56, Form::Text(6)),
    Field::Always(62, Form::Code(Codes::Sides)),
    Field::Always(63, Form::Code(Codes::Books)),
    Field::Always(64, Form::Reserved(9)),
];

impl Layout for OrderCancelRequest<'_> {
    ghost shape = { laid LETTER TOTAL TABLE };

    ghost published = { order_cancel_request_published };

    ghost fits = { refl };

    ghost as_published = { refl };

    fn shape() -> Shape
        ensures { Shaped (laid LETTER TOTAL TABLE) result }
    {
        Shape::new(LETTER, TOTAL, &TABLE)
    }

    #[tactic(auto, unfolding(layout::specs::Layout::all_good))]
    fn good(r: &Reader<'_>) -> bool
        requires { length r.now.src.now ≡ TOTAL }
        ensures { result ≡ all_good TABLE r.now.src.now }
    {
        r.is_name(4, 20)
            & r.is_text(24, 20)
            & r.is_order(44)
            & r.is_text(56, 6)
            & r.is_code::<Side>(62)
            & r.is_code::<Book>(63)
    }
}

impl<'a> Framed<'a> for OrderCancelRequest<'a> {
    ghost use Rattle.order_messages.specs.Requests.{order_cancel_request_contents, order_cancel_request_places};

    ghost contents = { λ m. order_cancel_request_contents m };

    ghost places = { λ m. order_cancel_request_places m };

    fn fields(r: &Reader<'a>) -> Self {
        OrderCancelRequest {
            client_order_id: r.name(4),
            original_id: r.text(24),
            order_id: r.order(44),
            symbol: r.text(56),
            side: r.code(62),
            book: r.code(63),
        }
    }

    fn put(&self, out: &mut [u8]) {
        put_name(out, 4, &self.client_order_id);
        put_text(out, 24, &self.original_id);
        put_order(out, 44, &self.order_id);
        put_text(out, 56, &self.symbol);
        put_code(out, 62, &self.side);
        put_code(out, 63, &self.book);
        put_blank(out, 64, 9);
    }
}
