// Order Mass Cancel Request: type q, 46 bytes.
ghost use Rattle.std.specs.Prelude.{◌≡◌, ◌+◌, ◌≤◌, length, refl};
ghost use Rattle.layout.specs.Layout.{all_good};
ghost use Rattle.layout.specs.Shapes.{Shaped, laid};
ghost use Rattle.order_messages.specs.declared.order_mass_cancel_request.TheConstants.{LETTER, TABLE, TOTAL};
ghost use Rattle.order_messages.specs.Published.{order_mass_cancel_request_published};

use codes::lists::Codes;
use codes::order::{Book, MassCancelType};
use layout::put::{put_blank, put_code, put_name, put_text};
use layout::{Field, Form, Framed, Layout, Reader, Shape};
use texts::text::{Name, Text};

/// Whose orders a mass cancel takes, and of what.
#[derive(Clone, Copy, Debug)]
pub enum Scope<'a> {
    /// The firm's orders of an instrument, in one book.
    FirmInstrument(Text<'a, 6>, Book),
    /// The firm's orders of a segment.
    FirmSegment(Text<'a, 4>),
    /// The CompID's orders.
    CompId,
    /// The firm's orders.
    Firm,
    /// The CompID's orders of an instrument, in one book.
    CompIdInstrument(Text<'a, 6>, Book),
    /// The CompID's orders of a segment.
    CompIdSegment(Text<'a, 4>),
}

/// Cancels all orders of a firm or a CompID, or those of an instrument or a segment.
#[derive(Clone, Copy, Debug)]
pub struct OrderMassCancelRequest<'a> {
    /// The identifier of this request.
    pub client_order_id: Name<'a, 20>,
    pub scope: Scope<'a>,
}

const LETTER: u8 = b'q';

const TOTAL: u16 = 46;

const TABLE: [Field; 7] = [
    Field::Always(4, Form::Name(20)),
    Field::Always(24, Form::Code(Codes::MassCancelTypes)),
    Field::When(25, Form::Text(6), 24, Codes::ByInstrument),
    Field::When(31, Form::Text(4), 24, Codes::BySegment),
    Field::Always(35, Form::Reserved(1)),
    Field::When(36, Form::Code(Codes::Books), 24, Codes::ByInstrument),
    Field::Always(37, Form::Reserved(9)),
];

impl Layout for OrderMassCancelRequest<'_> {
    ghost shape = { laid LETTER TOTAL TABLE };

    ghost published = { order_mass_cancel_request_published };

    ghost fits = { refl };

    ghost as_published = { refl };

    fn shape() -> Shape
        ensures { Shaped (laid LETTER TOTAL TABLE) result }
    {
        Shape::new(LETTER, TOTAL, &TABLE)
    }

    #[tactic(auto, unfolding(layout::specs::Layout::all_good))]
    fn good(r: &Reader<'_>) -> bool
        requires { length r.now.src.now ≡ TOTAL }
        ensures { result ≡ all_good TABLE r.now.src.now }
    {
        r.is_name(4, 20)
            & r.is_code::<MassCancelType>(24)
            & r.is_text_when(25, 6, 24, Codes::ByInstrument)
            & r.is_text_when(31, 4, 24, Codes::BySegment)
            & r.is_code_when::<Book>(36, 24, Codes::ByInstrument)
    }
}

impl<'a> Framed<'a> for OrderMassCancelRequest<'a> {
    ghost use Rattle.order_messages.specs.Requests.{order_mass_cancel_request_contents, order_mass_cancel_request_places};

    ghost contents = { λ m. order_mass_cancel_request_contents m };

    ghost places = { λ m. order_mass_cancel_request_places m };

    fn fields(r: &Reader<'a>) -> Self {
        OrderMassCancelRequest {
            client_order_id: r.name(4),
            scope: Scope::at(r),
        }
    }

    fn put(&self, out: &mut [u8]) {
        put_name(out, 4, &self.client_order_id);
        put_code(out, 24, &self.scope.kind());
        self.scope.put_symbol(out, 25);
        self.scope.put_segment(out, 31);
        put_blank(out, 35, 1);
        self.scope.put_book(out, 36);
        put_blank(out, 37, 9);
    }
}

impl<'a> Scope<'a> {
    ghost use Rattle.codes.specs.Order.{mass_cancel_type_code};
    ghost use Rattle.layout.specs.Holding.{Holds};
    ghost use Rattle.layout.specs.Layout.{AllOk, Says, text_places};
    ghost use Rattle.layout.specs.Writing.{field_bytes, over};
    ghost use Rattle.order_messages.specs.Terms.{book_field, scope_book, scope_contents, scope_fields, scope_kind, scope_places, scope_segment, scope_symbol, segment_field, symbol_field};

    /// The kind of mass cancel, as its field names it.
    pub fn kind(&self) -> MassCancelType
        ensures { result ≡ scope_kind self.now }
    {
        match self {
            Scope::FirmInstrument(_, _) => MassCancelType::FirmInstrument,
            Scope::FirmSegment(_) => MassCancelType::FirmSegment,
            Scope::CompId => MassCancelType::CompId,
            Scope::Firm => MassCancelType::Firm,
            Scope::CompIdInstrument(_, _) => MassCancelType::CompIdInstrument,
            Scope::CompIdSegment(_) => MassCancelType::CompIdSegment,
        }
    }

    // The kind, and what belongs to it.
    fn at(r: &Reader<'a>) -> Scope<'a>
        requires room { TOTAL ≤ length r.now.src.now }
        requires good { AllOk scope_fields r.now.src.now }
        ensures says { Says (scope_contents result) scope_fields r.now.src.now }
        ensures placed { scope_places result ≡ text_places scope_fields r.now.src.now }
    {
        let kind: MassCancelType = r.code(24);
        match kind {
            MassCancelType::FirmInstrument => Scope::FirmInstrument(r.text(25), r.code(36)),
            MassCancelType::FirmSegment => Scope::FirmSegment(r.text(31)),
            MassCancelType::CompId => Scope::CompId,
            MassCancelType::Firm => Scope::Firm,
            MassCancelType::CompIdInstrument => Scope::CompIdInstrument(r.text(25), r.code(36)),
            MassCancelType::CompIdSegment => Scope::CompIdSegment(r.text(31)),
        }
    }

    // The symbol of a mass cancel by instrument, or nulls.
    #[tactic(auto, unfolding(layout::specs::Writing::field_bytes, layout::specs::Layout::taken))]
    fn put_symbol(&self, out: &mut [u8], at: usize)
        requires { at + 6 ≤ length out.old }
        ensures wrote { out.new ≡ over out.old at (field_bytes (symbol_field at) (scope_symbol self.now)) }
        ensures holds { Holds (λ n. mass_cancel_type_code (scope_kind self.now)) (symbol_field at)
            (scope_symbol self.now) }
    {
        match self {
            Scope::FirmInstrument(symbol, _) | Scope::CompIdInstrument(symbol, _) => put_text(
                out, at, symbol,
            ),
            _ => put_blank(out, at, 6),
        }
    }

    // The segment of a mass cancel by segment, or nulls.
    #[tactic(auto, unfolding(layout::specs::Writing::field_bytes, layout::specs::Layout::taken))]
    fn put_segment(&self, out: &mut [u8], at: usize)
        requires { at + 4 ≤ length out.old }
        ensures wrote { out.new ≡ over out.old at (field_bytes (segment_field at) (scope_segment self.now)) }
        ensures holds { Holds (λ n. mass_cancel_type_code (scope_kind self.now)) (segment_field at)
            (scope_segment self.now) }
    {
        match self {
            Scope::FirmSegment(segment) | Scope::CompIdSegment(segment) => put_text(
                out, at, segment,
            ),
            _ => put_blank(out, at, 4),
        }
    }

    // The book of a mass cancel by instrument, or a null.
    #[tactic(auto, unfolding(layout::specs::Writing::field_bytes, layout::specs::Layout::taken))]
    fn put_book(&self, out: &mut [u8], at: usize)
        requires { at + 1 ≤ length out.old }
        ensures wrote { out.new ≡ over out.old at (field_bytes (book_field at) (scope_book self.now)) }
        ensures holds { Holds (λ n. mass_cancel_type_code (scope_kind self.now)) (book_field at) (scope_book self.now) }
    {
        match self {
            Scope::FirmInstrument(_, book) | Scope::CompIdInstrument(_, book) => put_code(
                out, at, book,
            ),
            _ => put_blank(out, at, 1),
        }
    }
}
