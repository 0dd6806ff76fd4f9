// One field, written at its place: what the bytes then are, and that the field can hold it.
#![tactic(auto, unfolding(crate::specs::Writing::field_bytes))]

ghost use Rattle.std.specs.Prelude.{◌≡◌, ◌+◌, ◌≤◌, length, replicate};
ghost use Rattle.std.specs.Option.{option_map};
ghost use Rattle.texts.specs.Says.{says};
ghost use Rattle.layout.specs.declared.field.Form.TheVariants as form;
ghost use Rattle.layout.specs.declared.field.Field.TheVariants as field;
ghost use Rattle.layout.specs.Layout.Content.{words, order, figure, int8, int32, price, clock, nothing};
ghost use Rattle.layout.specs.Writing.{over, field_bytes, header};
ghost use Rattle.layout.specs.Holding.{HoldsForm};

use crate::sequence::LastSequence;
use codes::code::Code;
use texts::identifiers::OrderId;
use texts::text::{Name, Text};
use texts::values::{Price, Time};

/// The byte that each message begins with.
pub const START: u8 = 2;

// Bytes, at a place.
#[tactic(auto, using(crate::proofs::Overs::put_over))]
fn put(out: &mut [u8], at: usize, bytes: &[u8])
    requires { at + length bytes.now ≤ length out.old }
    ensures { out.new ≡ over out.old at bytes.now }
{
    out[at..at + bytes.len()].copy_from_slice(bytes);
}

// The start byte, the length from the type on, and the type.
pub(crate) fn put_header(out: &mut [u8], letter: u8, total: u16)
    requires room { 4 ≤ length out.old }
    requires headed { 3 ≤ total }
    ensures { out.new ≡ over out.old 0 (header letter total) }
{
    let len = (total - 3).to_le_bytes();
    put(out, 0, &[START, len[0], len[1], letter]);
}

// All bytes of a field that has N: cut to N, so that the compiler knows how many there are to copy.
fn all<const N: usize>(field: &[u8]) -> &[u8]
    requires { length field.now ≡ N }
    ensures { result.now ≡ field.now }
{
    &field[..N]
}

/// A text, as the whole field that it is.
#[tactic(auto, using(crate::proofs::Fields::text_bytes, crate::proofs::Fields::said_fits, texts::proofs::Padding::said_printable))]
pub fn put_text<const N: usize>(out: &mut [u8], at: usize, text: &Text<'_, N>)
    requires { at + N ≤ length out.old }
    ensures wrote { out.new ≡ over out.old at (field_bytes (field.Always at (form.Text N)) (words (says text.now))) }
    ensures holds { HoldsForm (form.Text N) (words (says text.now)) }
{
    put(out, at, all::<N>(text.field));
}

/// A text that is not empty, as the whole field that it is.
#[tactic(auto, using(crate::proofs::Fields::name_bytes, crate::proofs::Fields::said_fits, texts::proofs::Padding::said_printable, texts::proofs::Kept::named_says))]
pub fn put_name<const N: usize>(out: &mut [u8], at: usize, name: &Name<'_, N>)
    requires { at + N ≤ length out.old }
    ensures wrote { out.new ≡ over out.old at
        (field_bytes (field.Always at (form.Name N)) (words (says name.now.text))) }
    ensures holds { HoldsForm (form.Name N) (words (says name.now.text)) }
{
    put(out, at, all::<N>(name.text.field));
}

/// The identifier of an order, or nulls.
pub fn put_order(out: &mut [u8], at: usize, id: &Option<OrderId>)
    requires { at + 12 ≤ length out.old }
    ensures wrote { out.new ≡ over out.old at
        (field_bytes (field.Always at form.Order) (order (option_map (λ i. i.number) id.now))) }
    ensures holds { HoldsForm form.Order (order (option_map (λ i. i.number) id.now)) }
{
    match id {
        None => put_nulls(out, at, 12),
        Some(OrderId { number }) => {
            let text = OrderId { number: *number }.text();
            put(out, at, text.as_text().field)
        }
    }
}

/// A sequence number.
pub fn put_sequence(out: &mut [u8], at: usize, last: &LastSequence)
    requires { at + 4 ≤ length out.old }
    ensures wrote { out.new ≡ over out.old at (field_bytes (field.Always at form.Sequence) (figure last.now.value)) }
    ensures holds { HoldsForm form.Sequence (figure last.now.value) }
{
    put(out, at, &last.value.to_le_bytes());
}

/// The byte that stands for a listed value.
#[tactic(auto, unfolding(crate::specs::Writing::field_bytes, crate::specs::Layout::taken))]
pub fn put_code<C: Code>(out: &mut [u8], at: usize, value: &C)
    requires { at + 1 ≤ length out.old }
    ensures wrote { out.new ≡ over out.old at
        (field_bytes (field.Always at (form.Code C.list)) (figure (C.coded value.now))) }
    ensures holds { HoldsForm (form.Code C.list) (figure (C.coded value.now)) }
{
    put(out, at, &[value.byte()]);
}

/// Any byte.
pub fn put_u8(out: &mut [u8], at: usize, byte: u8)
    requires { at + 1 ≤ length out.old }
    ensures wrote { out.new ≡ over out.old at (field_bytes (field.Always at form.Alpha) (figure byte)) }
    ensures holds { HoldsForm form.Alpha (figure byte) }
{
    put(out, at, &[byte]);
}

/// A number of four bytes, the lowest first.
pub fn put_u32(out: &mut [u8], at: usize, number: u32)
    requires { at + 4 ≤ length out.old }
    ensures wrote { out.new ≡ over out.old at (field_bytes (field.Always at form.UInt32) (figure number)) }
    ensures holds { HoldsForm form.UInt32 (figure number) }
{
    put(out, at, &number.to_le_bytes());
}

/// A number of eight bytes, the lowest first.
pub fn put_u64(out: &mut [u8], at: usize, number: u64)
    requires { at + 8 ≤ length out.old }
    ensures wrote { out.new ≡ over out.old at (field_bytes (field.Always at form.UInt64) (figure number)) }
    ensures holds { HoldsForm form.UInt64 (figure number) }
{
    put(out, at, &number.to_le_bytes());
}

// Signed numbers come by reference: by value a clause would see them by their bits.
/// A signed number of one byte.
pub fn put_i8(out: &mut [u8], at: usize, number: &i8)
    requires { at + 1 ≤ length out.old }
    ensures wrote { out.new ≡ over out.old at (field_bytes (field.Always at form.Int8) (int8 number.now)) }
    ensures holds { HoldsForm form.Int8 (int8 number.now) }
{
    put(out, at, &number.cast_unsigned().to_le_bytes());
}

/// A signed number of four bytes, the lowest first.
pub fn put_i32(out: &mut [u8], at: usize, number: &i32)
    requires { at + 4 ≤ length out.old }
    ensures wrote { out.new ≡ over out.old at (field_bytes (field.Always at form.Int32) (int32 number.now)) }
    ensures holds { HoldsForm form.Int32 (int32 number.now) }
{
    put(out, at, &number.cast_unsigned().to_le_bytes());
}

/// A price: a signed number of eight bytes, in hundred-millionths.
pub fn put_price(out: &mut [u8], at: usize, amount: &Price)
    requires { at + 8 ≤ length out.old }
    ensures wrote { out.new ≡ over out.old at (field_bytes (field.Always at form.Price) (price amount.now.raw)) }
    ensures holds { HoldsForm form.Price (price amount.now.raw) }
{
    put(out, at, &amount.raw.cast_unsigned().to_le_bytes());
}

/// A time: the seconds, and behind them the microseconds, four bytes each.
#[tactic(auto, using(crate::proofs::Overs::over_over), unfolding(crate::specs::Writing::field_bytes))]
pub fn put_time(out: &mut [u8], at: usize, time: &Time)
    requires { at + 8 ≤ length out.old }
    ensures wrote { out.new ≡ over out.old at
        (field_bytes (field.Always at form.Time) (clock time.now.seconds time.now.microseconds)) }
    ensures holds { HoldsForm form.Time (clock time.now.seconds time.now.microseconds) }
{
    put(out, at, &time.seconds.to_le_bytes());
    put(out, at + 4, &time.microseconds.to_le_bytes());
}

// Nulls, at a place.
#[tactic(auto, using(crate::proofs::Overs::put_over))]
fn put_nulls(out: &mut [u8], at: usize, width: usize)
    requires { at + width ≤ length out.old }
    ensures { out.new ≡ over out.old at (replicate width 0) }
{
    out[at..at + width].fill(0);
}

/// A field that is reserved, or that does not matter.
pub fn put_blank(out: &mut [u8], at: usize, width: usize)
    requires { at + width ≤ length out.old }
    ensures wrote { out.new ≡ over out.old at (field_bytes (field.Always at (form.Reserved width)) nothing) }
    ensures holds { HoldsForm (form.Reserved width) nothing }
{
    put_nulls(out, at, width);
}
