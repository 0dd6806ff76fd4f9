// A message's fields, read at their places.
ghost use Rattle.std.specs.Prelude.{◌≡◌, ◌+◌, ◌^◌, ◌≤◌, ◌&&◌, true, length, take, drop, nat_lt, IfSome};
ghost use Rattle.std.proofs.Common.{to_z, of_z};
ghost use Rattle.std.specs.Int.{w8, w32, w64};
ghost use Rattle.std.specs.Option.{option_map};
ghost use Rattle.texts.specs.Bytes.{part, le, said, is_text, named, text_end};
ghost use Rattle.texts.specs.Says.{says};
ghost use Rattle.codes.specs.Lists.{listed};
ghost use Rattle.layout.specs.Layout.{taken, ok, is_order, order_at};
ghost use Rattle.layout.specs.Looks.{Tells};
ghost use Rattle.layout.specs.declared.field.Form.TheVariants as form;
ghost use Rattle.layout.specs.declared.field.Field.TheVariants as field;
ghost use Rattle.layout.specs.declared.sequence.TheConstants.{SEQUENCE_LIMIT};

use crate::look::Masks;
use crate::sequence::{LastSequence, SEQUENCE_LIMIT};
use codes::code::Code;
use codes::lists::Codes;
use texts::bytes::{all_null, text_end};
use texts::identifiers::OrderId;
use texts::text::{Name, Text};
use texts::values::{Price, Time};

/// The bytes of one message.
#[derive(Clone, Copy)]
pub struct Reader<'a> {
    pub src: &'a [u8],
}

impl<'a> Reader<'a> {
    /// The bytes of one field.
    #[inline(always)]
    #[tactic(auto, using(crate::proofs::Parts::cut))]
    pub fn part(&self, at: usize, width: usize) -> &'a [u8]
        requires { at + width ≤ length self.now.src.now }
        ensures { result.now ≡ part at width self.now.src.now }
    {
        let src = self.src;
        &src[at..at + width]
    }

    /// The byte at a place.
    #[tactic(auto, using(crate::proofs::Parts::le_1))]
    pub fn u8(&self, at: usize) -> u8
        requires { at + 1 ≤ length self.now.src.now }
        ensures { result ≡ le (part at 1 self.now.src.now) }
    {
        self.src[at]
    }

    /// The number of two bytes at a place, the lowest first.
    #[tactic(auto, using(crate::proofs::Parts::le_2))]
    pub fn u16(&self, at: usize) -> u16
        requires { at + 2 ≤ length self.now.src.now }
        ensures { result ≡ le (part at 2 self.now.src.now) }
    {
        let s = self.src;
        u16::from_le_bytes([s[at], s[at + 1]])
    }

    /// The number of four bytes at a place, the lowest first.
    #[tactic(auto, using(crate::proofs::Parts::le_4))]
    pub fn u32(&self, at: usize) -> u32
        requires { at + 4 ≤ length self.now.src.now }
        ensures { result ≡ le (part at 4 self.now.src.now) }
    {
        let s = self.src;
        u32::from_le_bytes([s[at], s[at + 1], s[at + 2], s[at + 3]])
    }

    /// The number of eight bytes at a place, the lowest first.
    #[tactic(auto, using(crate::proofs::Parts::le_8))]
    pub fn u64(&self, at: usize) -> u64
        requires { at + 8 ≤ length self.now.src.now }
        ensures { result ≡ le (part at 8 self.now.src.now) }
    {
        let s = self.src;
        u64::from_le_bytes([
            s[at],
            s[at + 1],
            s[at + 2],
            s[at + 3],
            s[at + 4],
            s[at + 5],
            s[at + 6],
            s[at + 7],
        ])
    }

    /// The signed number of one byte at a place.
    pub fn i8(&self, at: usize) -> i8
        requires { at + 1 ≤ length self.now.src.now }
        ensures value { result ≡ to_z w8 (le (part at 1 self.now.src.now)) }
        ensures bits { of_z w8 result ≡ le (part at 1 self.now.src.now) }
    {
        self.u8(at).cast_signed()
    }

    /// The signed number of four bytes at a place, the lowest first.
    pub fn i32(&self, at: usize) -> i32
        requires { at + 4 ≤ length self.now.src.now }
        ensures value { result ≡ to_z w32 (le (part at 4 self.now.src.now)) }
        ensures bits { of_z w32 result ≡ le (part at 4 self.now.src.now) }
    {
        self.u32(at).cast_signed()
    }

    /// The price at a place: a signed number of eight bytes, in hundred-millionths.
    pub fn price(&self, at: usize) -> Price
        requires { at + 8 ≤ length self.now.src.now }
        ensures value { result.raw ≡ to_z w64 (le (part at 8 self.now.src.now)) }
        ensures bits { of_z w64 result.raw ≡ le (part at 8 self.now.src.now) }
    {
        Price {
            raw: self.u64(at).cast_signed(),
        }
    }

    /// The time at a place: the seconds, and behind them the microseconds, four bytes each.
    #[tactic(auto, using(crate::proofs::Parts::first_half, crate::proofs::Parts::second_half))]
    pub fn time(&self, at: usize) -> Time
        requires { at + 8 ≤ length self.now.src.now }
        ensures seconds { result.seconds ≡ le (take 4 (part at 8 self.now.src.now)) }
        ensures micros { result.microseconds ≡ le (take 4 (drop 4 (part at 8 self.now.src.now))) }
    {
        Time {
            seconds: self.u32(at),
            microseconds: self.u32(at + 4),
        }
    }

    // One look at a field and what stands behind it; none where fewer bytes stand there than are looked at side by side.
    #[inline(always)]
    fn look(&self, at: usize, width: usize) -> Option<Masks>
        requires { at + width ≤ length self.now.src.now }
        ensures { IfSome result (λ m. Tells (part at width self.now.src.now) width m) }
    {
        let left = self.src.len() - at;
        if width <= 16 && 16 <= left {
            Some(Masks::of_16(self.src, at))
        } else if width <= 32 && 32 <= left {
            Some(Masks::of_32(self.src, at))
        } else {
            None
        }
    }

    /// Where the text of a field ends.
    #[inline(always)]
    #[tactic(auto, using(crate::proofs::Parts::end_at))]
    pub fn text_end(&self, at: usize, width: usize) -> usize
        requires { at + width ≤ length self.now.src.now }
        ensures value { result ≡ text_end (part at width self.now.src.now) }
        ensures bound { result ≤ width }
    {
        match self.look(at, width) {
            Some(masks) => masks.end(width),
            None => text_end(self.part(at, width)),
        }
    }

    /// Whether a field holds text: behind its end nothing but nulls.
    #[inline(always)]
    #[tactic(auto, using(crate::proofs::Parts::is_text_rest))]
    pub fn is_text(&self, at: usize, width: usize) -> bool
        requires { at + width ≤ length self.now.src.now }
        ensures { result ≡ is_text (part at width self.now.src.now) }
    {
        match self.look(at, width) {
            Some(masks) => masks.is_text(width),
            None => {
                let field = self.part(at, width);
                all_null(&field[text_end(field)..])
            }
        }
    }

    /// Whether a field holds text that is not empty.
    #[inline(always)]
    #[tactic(auto, unfolding(texts::specs::Bytes::named))]
    pub fn is_name(&self, at: usize, width: usize) -> bool
        requires { at + width ≤ length self.now.src.now }
        ensures { let field = part at width self.now.src.now in result ≡ (is_text field && named field) }
    {
        self.is_text(at, width) & (self.text_end(at, width) > 0)
    }

    /// What a field says, if it holds text.
    #[tactic(auto, using(crate::proofs::Parts::part_long))]
    pub fn said(&self, at: usize, width: usize) -> &'a [u8]
        requires { at + width ≤ length self.now.src.now }
        ensures { result.now ≡ said (part at width self.now.src.now) }
    {
        let field = self.part(at, width);
        &field[..self.text_end(at, width)]
    }

    /// The text of a field that holds text.
    #[inline(always)]
    #[tactic(auto, using(crate::proofs::Parts::part_long))]
    pub fn text<const N: usize>(&self, at: usize) -> Text<'a, N>
        requires room { at + N ≤ length self.now.src.now }
        requires good { is_text (part at N self.now.src.now) ≡ true }
        ensures field { result.field.now ≡ part at N self.now.src.now }
        ensures says { says result ≡ said (part at N self.now.src.now) }
        ensures offset { result.offset ≡ at }
    {
        Text {
            field: self.part(at, N),
            offset: at,
            end: self.text_end(at, N),
        }
    }

    /// The text of a field that holds text, and not an empty one.
    #[inline(always)]
    #[tactic(auto, using(crate::proofs::Parts::part_long, std::proofs::lemmas::Bool::and_parts))]
    pub fn name<const N: usize>(&self, at: usize) -> Name<'a, N>
        requires room { at + N ≤ length self.now.src.now }
        requires good { let field = part at N self.now.src.now in (is_text field && named field) ≡ true }
        ensures says { says result.text ≡ said (part at N self.now.src.now) }
        ensures offset { result.text.offset ≡ at }
    {
        Name {
            text: self.text(at),
        }
    }

    /// The sequence number at a place, where one can stand there.
    pub fn sequence(&self, at: usize) -> LastSequence
        requires room { at + 4 ≤ length self.now.src.now }
        requires good { nat_lt (le (part at 4 self.now.src.now)) (2 ^ 31) ≡ true }
        ensures { result.value ≡ le (part at 4 self.now.src.now) }
    {
        LastSequence {
            value: self.u32(at),
        }
    }

    /// Whether a number can stand in a field as the last of a sequence: it is not negative.
    pub fn is_sequence(&self, at: usize) -> bool
        requires { at + 4 ≤ length self.now.src.now }
        ensures { result ≡ nat_lt (le (part at 4 self.now.src.now)) (2 ^ 31) }
    {
        self.u32(at) < SEQUENCE_LIMIT
    }

    /// Whether a field holds an order's identifier, or null.
    #[tactic(auto, using(crate::proofs::Options::some_mapped), unfolding(crate::specs::Layout::is_order))]
    pub fn is_order(&self, at: usize) -> bool
        requires { at + 12 ≤ length self.now.src.now }
        ensures { result ≡ is_order (part at 12 self.now.src.now) }
    {
        let field = self.part(at, 12);
        all_null(field) || OrderId::read(field).is_some()
    }

    /// The order that a field names, if it names one.
    #[tactic(auto, unfolding(crate::specs::Layout::order_at))]
    pub fn order(&self, at: usize) -> Option<OrderId>
        requires { at + 12 ≤ length self.now.src.now }
        ensures { option_map (λ i. i.number) result ≡ order_at (part at 12 self.now.src.now) }
    {
        OrderId::read(self.part(at, 12))
    }

    /// The value that a code stands for, where the code is one of its list.
    #[inline(always)]
    #[tactic(auto, unfolding(crate::specs::Layout::taken))]
    pub fn code<C: Code>(&self, at: usize) -> C
        requires inside { at + 1 ≤ length self.now.src.now }
        requires listed { taken (le (part at 1 self.now.src.now)) (listed C.list) ≡ true }
        ensures { C.coded result ≡ le (part at 1 self.now.src.now) }
    {
        match C::of(self.u8(at)) {
            Some(x) => x,
            None => unreachable!(),
        }
    }
    /// Whether a field of one byte holds a code.
    #[inline(always)]
    #[tactic(auto, unfolding(crate::specs::Layout::taken))]
    pub fn is_code<C: Code + Drop>(&self, at: usize) -> bool
        requires { at + 1 ≤ length self.now.src.now }
        ensures { result ≡ taken (le (part at 1 self.now.src.now)) (listed C.list) }
    {
        C::of(self.u8(at)).is_some()
    }

    /// Whether a field of one byte holds a code, or the byte at another place makes it not matter.
    #[inline(always)]
    #[tactic(auto, unfolding(crate::specs::Layout::taken))]
    pub fn is_code_when<C: Code + Drop>(&self, at: usize, other: usize, codes: Codes) -> bool
        requires inside { at + 1 ≤ length self.now.src.now }
        requires other { other + 1 ≤ length self.now.src.now }
        ensures { result ≡ ok self.now.src.now (field.When at (form.Code C.list) other codes) }
    {
        !codes.has(self.u8(other)) || self.is_code::<C>(at)
    }

    /// Whether a field holds text, or the byte at another place makes it not matter.
    #[inline(always)]
    #[tactic(auto, unfolding(crate::specs::Layout::taken))]
    pub fn is_text_when(&self, at: usize, width: usize, other: usize, codes: Codes) -> bool
        requires inside { at + width ≤ length self.now.src.now }
        requires other { other + 1 ≤ length self.now.src.now }
        ensures { result ≡ ok self.now.src.now (field.When at (form.Text width) other codes) }
    {
        !codes.has(self.u8(other)) || self.is_text(at, width)
    }
}
