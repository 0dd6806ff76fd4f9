// New Order: type D, 97 bytes.
ghost use Rattle.std.specs.Prelude.{◌≡◌, ◌+◌, ◌≤◌, length, refl};
ghost use Rattle.layout.specs.Shapes.{Shaped, laid};
ghost use Rattle.order_messages.specs.declared.new_order.TheConstants.{LETTER, TABLE, TOTAL};
ghost use Rattle.order_messages.specs.Published.{new_order_published};
ghost use Rattle.codes.specs.Order.{order_type_code};
ghost use Rattle.terms.specs.Pricing.{order_type_of};
ghost use Rattle.layout.specs.Holding.{Holds};
ghost use Rattle.layout.specs.Layout.{AllOk, Says, all_good};
ghost use Rattle.layout.specs.Writing.{field_bytes, over};
ghost use Rattle.order_messages.specs.Terms.{limit_field, pricing_contents, pricing_fields, pricing_price};

use crate::target::{put_target, target_at};
use codes::lists::Codes;
use codes::order::{
    AutoCancel, Book, ClearingAccount, ExecInstruction, OrderCapacity, OrderSubType, OrderType,
    PassiveOnly, Side, TimeInForce,
};
use layout::put::{put_blank, put_code, put_i32, put_name, put_price, put_text, put_u32};
use layout::{Field, Form, Framed, Layout, Reader, Shape};
use terms::pricing::Pricing;
use terms::target::Target;
use texts::text::{Name, Text};

/// A new order.
#[derive(Clone, Copy, Debug)]
pub struct NewOrder<'a> {
    pub client_order_id: Name<'a, 20>,
    pub trader_id: Text<'a, 11>,
    pub account: Text<'a, 10>,
    pub clearing_account: ClearingAccount,
    pub symbol: Text<'a, 6>,
    /// The order's type, and its limit where it has one.
    pub pricing: Pricing,
    pub time_in_force: TimeInForce,
    /// When the order is to end, where its time in force asks for that.
    pub expire_time: u32,
    pub side: Side,
    /// In shares, as the next one is.
    pub quantity: i32,
    /// How many of them are shown.
    pub display_quantity: i32,
    pub capacity: OrderCapacity,
    pub auto_cancel: AutoCancel,
    pub sub_type: OrderSubType,
    /// The book, and for the dark one when the order takes part.
    pub target: Target,
    /// The least that a trade may take, in shares; 0 where any will do.
    pub min_quantity: i32,
    pub passive_only: PassiveOnly,
}

const LETTER: u8 = b'D';

const TOTAL: u16 = 97;

const TABLE: [Field; 21] = [
    Field::Always(4, Form::Name(20)),
    Field::Always(24, Form::Text(11)),
    Field::Always(35, Form::Text(10)),
    Field::Always(45, Form::Code(Codes::ClearingAccounts)),
    Field::Always(46, Form::Text(6)),
    Field::Always(52, Form::Code(Codes::OrderTypes)),
    Field::Always(53, Form::Code(Codes::TimesInForce)),
    Field::Always(54, Form::UInt32),
    Field::Always(58, Form::Code(Codes::Sides)),
    Field::Always(59, Form::Int32),
    Field::Always(63, Form::Int32),
    Field::When(67, Form::Price, 52, Codes::LimitOnly),
    Field::Always(75, Form::Code(Codes::OrderCapacities)),
    Field::Always(76, Form::Code(Codes::AutoCancels)),
    Field::Always(77, Form::Code(Codes::OrderSubTypes)),
    Field::Always(78, Form::Reserved(9)),
    Field::Always(87, Form::Code(Codes::Books)),
    Field::When(88, Form::Code(Codes::ExecInstructions), 87, Codes::DarkOnly),
    Field::Always(89, Form::Int32),
    Field::Always(93, Form::Reserved(3)),
    Field::Always(96, Form::Code(Codes::PassiveOnlys)),
];

impl Layout for NewOrder<'_> {
    ghost shape = { laid LETTER TOTAL TABLE };

    ghost published = { new_order_published };

    ghost fits = { refl };

    ghost as_published = { refl };

    fn shape() -> Shape
        ensures { Shaped (laid LETTER TOTAL TABLE) result }
    {
        Shape::new(LETTER, TOTAL, &TABLE)
    }

    #[tactic(auto, unfolding(layout::specs::Layout::all_good))]
    fn good(r: &Reader<'_>) -> bool
        requires { length r.now.src.now ≡ TOTAL }
        ensures { result ≡ all_good TABLE r.now.src.now }
    {
        r.is_name(4, 20)
            & r.is_text(24, 11)
            & r.is_text(35, 10)
            & r.is_code::<ClearingAccount>(45)
            & r.is_text(46, 6)
            & r.is_code::<OrderType>(52)
            & r.is_code::<TimeInForce>(53)
            & r.is_code::<Side>(58)
            & r.is_code::<OrderCapacity>(75)
            & r.is_code::<AutoCancel>(76)
            & r.is_code::<OrderSubType>(77)
            & r.is_code::<Book>(87)
            & r.is_code_when::<ExecInstruction>(88, 87, Codes::DarkOnly)
            & r.is_code::<PassiveOnly>(96)
    }
}

impl<'a> Framed<'a> for NewOrder<'a> {
    ghost use Rattle.order_messages.specs.Requests.{new_order_contents, new_order_places};

    ghost contents = { λ m. new_order_contents m };

    ghost places = { λ m. new_order_places m };

    fn fields(r: &Reader<'a>) -> Self {
        NewOrder {
            client_order_id: r.name(4),
            trader_id: r.text(24),
            account: r.text(35),
            clearing_account: r.code(45),
            symbol: r.text(46),
            pricing: pricing_at(r),
            time_in_force: r.code(53),
            expire_time: r.u32(54),
            side: r.code(58),
            quantity: r.i32(59),
            display_quantity: r.i32(63),
            capacity: r.code(75),
            auto_cancel: r.code(76),
            sub_type: r.code(77),
            target: target_at(r, 87),
            min_quantity: r.i32(89),
            passive_only: r.code(96),
        }
    }

    fn put(&self, out: &mut [u8]) {
        put_name(out, 4, &self.client_order_id);
        put_text(out, 24, &self.trader_id);
        put_text(out, 35, &self.account);
        put_code(out, 45, &self.clearing_account);
        put_text(out, 46, &self.symbol);
        put_code(out, 52, &self.pricing.order_type());
        put_code(out, 53, &self.time_in_force);
        put_u32(out, 54, self.expire_time);
        put_code(out, 58, &self.side);
        put_i32(out, 59, &self.quantity);
        put_i32(out, 63, &self.display_quantity);
        put_limit(out, 67, &self.pricing);
        put_code(out, 75, &self.capacity);
        put_code(out, 76, &self.auto_cancel);
        put_code(out, 77, &self.sub_type);
        put_blank(out, 78, 9);
        put_target(out, 87, &self.target);
        put_i32(out, 89, &self.min_quantity);
        put_blank(out, 93, 3);
        put_code(out, 96, &self.passive_only);
    }
}

// The type of the order, and its limit where it has one.
fn pricing_at(r: &Reader<'_>) -> Pricing
    requires room { 75 ≤ length r.now.src.now }
    requires good { AllOk pricing_fields r.now.src.now }
    ensures { Says (pricing_contents result) pricing_fields r.now.src.now }
{
    let order_type: OrderType = r.code(52);
    match order_type {
        OrderType::Market => Pricing::Market,
        OrderType::Limit => Pricing::Limit(r.price(67)),
    }
}

// The limit, or nulls.
#[tactic(auto, unfolding(layout::specs::Writing::field_bytes, layout::specs::Layout::taken))]
fn put_limit(out: &mut [u8], at: usize, pricing: &Pricing)
    requires { at + 8 ≤ length out.old }
    ensures wrote { out.new ≡ over out.old at (field_bytes (limit_field at) (pricing_price pricing.now)) }
    ensures holds { Holds (λ n. order_type_code (order_type_of pricing.now)) (limit_field at)
        (pricing_price pricing.now) }
{
    match pricing {
        Pricing::Market => put_blank(out, at, 8),
        Pricing::Limit(price) => put_price(out, at, price),
    }
}
