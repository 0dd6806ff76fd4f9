// Order Cancel Replace Request: type G, 112 bytes.
ghost use Rattle.std.specs.Prelude.{◌≡◌, length, refl};
ghost use Rattle.layout.specs.Layout.{all_good};
ghost use Rattle.layout.specs.Shapes.{Shaped, laid};
ghost use Rattle.order_messages.specs.declared.order_cancel_replace_request.TheConstants.{LETTER, TABLE, TOTAL};
ghost use Rattle.order_messages.specs.Published.{order_cancel_replace_request_published};

use crate::target::{put_target, target_at};
use codes::lists::Codes;
use codes::order::{Book, ExecInstruction, PassiveOnly, Side, TimeInForce};
use layout::put::{
    put_blank, put_code, put_i32, put_name, put_order, put_price, put_text, put_u32,
};
use layout::{Field, Form, Framed, Layout, Reader, Shape};
use terms::target::Target;
use texts::identifiers::OrderId;
use texts::text::{Name, Text};
use texts::values::Price;

/// Changes an order's quantity and price.
#[derive(Clone, Copy, Debug)]
pub struct OrderCancelReplaceRequest<'a> {
    /// The order's Client Order ID from now on.
    pub client_order_id: Name<'a, 20>,
    /// The order's Client Order ID up to now, or empty.
    pub original_id: Text<'a, 20>,
    pub order_id: Option<OrderId>,
    pub symbol: Text<'a, 6>,
    /// When the order is to end, where its time in force asks for that.
    pub expire_time: u32,
    /// In shares, those that were traded too.
    pub quantity: i32,
    /// How many of them are shown.
    pub display_quantity: i32,
    pub limit_price: Price,
    pub account: Text<'a, 10>,
    pub time_in_force: TimeInForce,
    pub side: Side,
    /// The book, and for the dark one when the order takes part.
    pub target: Target,
    /// The least that a trade may take, in shares; 0 where any will do.
    pub min_quantity: i32,
    pub passive_only: PassiveOnly,
}

const LETTER: u8 = b'G';

const TOTAL: u16 = 112;

const TABLE: [Field; 17] = [
    Field::Always(4, Form::Name(20)),
    Field::Always(24, Form::Text(20)),
    Field::Always(44, Form::Order),
    Field::Always(56, Form::Text(6)),
    Field::Always(62, Form::UInt32),
    Field::Always(66, Form::Int32),
    Field::Always(70, Form::Int32),
    Field::Always(74, Form::Price),
    Field::Always(82, Form::Text(10)),
    Field::Always(92, Form::Code(Codes::TimesInForce)),
    Field::Always(93, Form::Code(Codes::Sides)),
    Field::Always(94, Form::Reserved(8)),
    Field::Always(102, Form::Code(Codes::Books)),
    Field::When(
        103,
        Form::Code(Codes::ExecInstructions),
        102,
        Codes::DarkOnly,
    ),
    Field::Always(104, Form::Int32),
    Field::Always(108, Form::Code(Codes::PassiveOnlys)),
    Field::Always(109, Form::Reserved(3)),
];

impl Layout for OrderCancelReplaceRequest<'_> {
    ghost shape = { laid LETTER TOTAL TABLE };

    ghost published = { order_cancel_replace_request_published };

    ghost fits = { refl };

    ghost as_published = { refl };

    fn shape() -> Shape
        ensures { Shaped (laid LETTER TOTAL TABLE) result }
    {
        Shape::new(LETTER, TOTAL, &TABLE)
    }

    #[tactic(auto, unfolding(layout::specs::Layout::all_good))]
    fn good(r: &Reader<'_>) -> bool
        requires { length r.now.src.now ≡ TOTAL }
        ensures { result ≡ all_good TABLE r.now.src.now }
    {
        r.is_name(4, 20)
            & r.is_text(24, 20)
            & r.is_order(44)
            & r.is_text(56, 6)
            & r.is_text(82, 10)
            & r.is_code::<TimeInForce>(92)
            & r.is_code::<Side>(93)
            & r.is_code::<Book>(102)
            & r.is_code_when::<ExecInstruction>(103, 102, Codes::DarkOnly)
            & r.is_code::<PassiveOnly>(108)
    }
}

impl<'a> Framed<'a> for OrderCancelReplaceRequest<'a> {
    ghost use Rattle.order_messages.specs.Requests.{order_cancel_replace_request_contents, order_cancel_replace_request_places};

    ghost contents = { λ m. order_cancel_replace_request_contents m };

    ghost places = { λ m. order_cancel_replace_request_places m };

    fn fields(r: &Reader<'a>) -> Self {
        OrderCancelReplaceRequest {
            client_order_id: r.name(4),
            original_id: r.text(24),
            order_id: r.order(44),
            symbol: r.text(56),
            expire_time: r.u32(62),
            quantity: r.i32(66),
            display_quantity: r.i32(70),
            limit_price: r.price(74),
            account: r.text(82),
            time_in_force: r.code(92),
            side: r.code(93),
            target: target_at(r, 102),
            min_quantity: r.i32(104),
            passive_only: r.code(108),
        }
    }

    fn put(&self, out: &mut [u8]) {
        put_name(out, 4, &self.client_order_id);
        put_text(out, 24, &self.original_id);
        put_order(out, 44, &self.order_id);
        put_text(out, 56, &self.symbol);
        put_u32(out, 62, self.expire_time);
        put_i32(out, 66, &self.quantity);
        put_i32(out, 70, &self.display_quantity);
        put_price(out, 74, &self.limit_price);
        put_text(out, 82, &self.account);
        put_code(out, 92, &self.time_in_force);
        put_code(out, 93, &self.side);
        put_blank(out, 94, 8);
        put_target(out, 102, &self.target);
        put_i32(out, 104, &self.min_quantity);
        put_code(out, 108, &self.passive_only);
        put_blank(out, 109, 3);
    }
}
