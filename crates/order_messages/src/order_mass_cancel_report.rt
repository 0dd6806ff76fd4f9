// Order Mass Cancel Report: type r, 56 bytes.
ghost use Rattle.std.specs.Prelude.{◌≡◌, length, refl};
ghost use Rattle.layout.specs.Layout.{all_good};
ghost use Rattle.layout.specs.Shapes.{Shaped, laid};
ghost use Rattle.order_messages.specs.declared.order_mass_cancel_report.TheConstants.{LETTER, TABLE, TOTAL};
ghost use Rattle.order_messages.specs.Published.{order_mass_cancel_report_published};

use codes::lists::Codes;
use codes::report::MassResponse;
use codes::session::Partition;
use layout::put::{put_blank, put_code, put_i32, put_text, put_time};
use layout::{Field, Form, Framed, Layout, Reader, Shape};
use texts::text::Text;
use texts::values::Time;

/// Whether a mass cancel was accepted.
#[derive(Clone, Copy, Debug)]
pub struct OrderMassCancelReport<'a> {
    pub partition: Partition,
    /// Its number among the reports of its partition.
    pub sequence: i32,
    pub client_order_id: Text<'a, 20>,
    pub response: MassResponse,
    pub reason: i32,
    pub transact_time: Time,
}

const LETTER: u8 = b'r';

const TOTAL: u16 = 56;

const TABLE: [Field; 8] = [
    Field::Always(4, Form::Code(Codes::Partitions)),
    Field::Always(5, Form::Int32),
    Field::Always(9, Form::Text(20)),
    Field::Always(29, Form::Code(Codes::MassResponses)),
    Field::Always(30, Form::Int32),
    Field::Always(34, Form::Reserved(4)),
    Field::Always(38, Form::Time),
    Field::Always(46, Form::Reserved(10)),
];

impl Layout for OrderMassCancelReport<'_> {
    ghost shape = { laid LETTER TOTAL TABLE };

    ghost published = { order_mass_cancel_report_published };

    ghost fits = { refl };

    ghost as_published = { refl };

    fn shape() -> Shape
        ensures { Shaped (laid LETTER TOTAL TABLE) result }
    {
        Shape::new(LETTER, TOTAL, &TABLE)
    }

    #[tactic(auto, unfolding(layout::specs::Layout::all_good))]
    fn good(r: &Reader<'_>) -> bool
        requires { length r.now.src.now ≡ TOTAL }
        ensures { result ≡ all_good TABLE r.now.src.now }
    {
        r.is_code::<Partition>(4) & r.is_text(9, 20) & r.is_code::<MassResponse>(29)
    }
}

impl<'a> Framed<'a> for OrderMassCancelReport<'a> {
    ghost use Rattle.order_messages.specs.Reports.{order_mass_cancel_report_contents, order_mass_cancel_report_places};

    ghost contents = { λ m. order_mass_cancel_report_contents m };

    ghost places = { λ m. order_mass_cancel_report_places m };

    fn fields(r: &Reader<'a>) -> Self {
        OrderMassCancelReport {
            partition: r.code(4),
            sequence: r.i32(5),
            client_order_id: r.text(9),
            response: r.code(29),
            reason: r.i32(30),
            transact_time: r.time(38),
        }
    }

    fn put(&self, out: &mut [u8]) {
        put_code(out, 4, &self.partition);
        put_i32(out, 5, &self.sequence);
        put_text(out, 9, &self.client_order_id);
        put_code(out, 29, &self.response);
        put_i32(out, 30, &self.reason);
        put_blank(out, 34, 4);
        put_time(out, 38, &self.transact_time);
        put_blank(out, 46, 10);
    }
}
