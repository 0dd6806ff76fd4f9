// Order Cancel Reject: type 9, 63 bytes.
ghost use Rattle.std.specs.Prelude.{◌≡◌, length, refl};
ghost use Rattle.layout.specs.Layout.{all_good};
ghost use Rattle.layout.specs.Shapes.{Shaped, laid};
ghost use Rattle.order_messages.specs.declared.order_cancel_reject.TheConstants.{LETTER, TABLE, TOTAL};
ghost use Rattle.order_messages.specs.Published.{order_cancel_reject_published};

use codes::lists::Codes;
use codes::session::Partition;
use layout::put::{put_blank, put_code, put_i32, put_text, put_time};
use layout::{Field, Form, Framed, Layout, Reader, Shape};
use texts::text::Text;
use texts::values::Time;

/// A cancel or a replacement that was refused.
#[derive(Clone, Copy, Debug)]
pub struct OrderCancelReject<'a> {
    pub partition: Partition,
    /// Its number among the reports of its partition.
    pub sequence: i32,
    pub client_order_id: Text<'a, 20>,
    pub order_id: Text<'a, 12>,
    pub reason: i32,
    pub transact_time: Time,
}

const LETTER: u8 = b'9';

const TOTAL: u16 = 63;

const TABLE: [Field; 7] = [
    Field::Always(4, Form::Code(Codes::Partitions)),
    Field::Always(5, Form::Int32),
    Field::Always(9, Form::Text(20)),
    Field::Always(29, Form::Text(12)),
    Field::Always(41, Form::Int32),
    Field::Always(45, Form::Time),
    Field::Always(53, Form::Reserved(10)),
];

impl Layout for OrderCancelReject<'_> {
    ghost shape = { laid LETTER TOTAL TABLE };

    ghost published = { order_cancel_reject_published };

    ghost fits = { refl };

    ghost as_published = { refl };

    fn shape() -> Shape
        ensures { Shaped (laid LETTER TOTAL TABLE) result }
    {
        Shape::new(LETTER, TOTAL, &TABLE)
    }

    #[tactic(auto, unfolding(layout::specs::Layout::all_good))]
    fn good(r: &Reader<'_>) -> bool
        requires { length r.now.src.now ≡ TOTAL }
        ensures { result ≡ all_good TABLE r.now.src.now }
    {
        r.is_code::<Partition>(4) & r.is_text(9, 20) & r.is_text(29, 12)
    }
}

impl<'a> Framed<'a> for OrderCancelReject<'a> {
    ghost use Rattle.order_messages.specs.Reports.{order_cancel_reject_contents, order_cancel_reject_places};

    ghost contents = { λ m. order_cancel_reject_contents m };

    ghost places = { λ m. order_cancel_reject_places m };

    fn fields(r: &Reader<'a>) -> Self {
        OrderCancelReject {
            partition: r.code(4),
            sequence: r.i32(5),
            client_order_id: r.text(9),
            order_id: r.text(29),
            reason: r.i32(41),
            transact_time: r.time(45),
        }
    }

    fn put(&self, out: &mut [u8]) {
        put_code(out, 4, &self.partition);
        put_i32(out, 5, &self.sequence);
        put_text(out, 9, &self.client_order_id);
        put_text(out, 29, &self.order_id);
        put_i32(out, 41, &self.reason);
        put_time(out, 45, &self.transact_time);
        put_blank(out, 53, 10);
    }
}
