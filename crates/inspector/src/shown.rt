// A message as a line of text: its name, and what each of its fields holds, read at its place in the checked bytes.
ghost use Rattle.std.specs.Prelude.{◌≡◌, ◌+◌, ◌*◌, ◌≤◌, length, true, Some};
ghost use Rattle.std.specs.Option.{option_map};
ghost use Rattle.texts.specs.Bytes.{all_printable, part, said};
ghost use Rattle.layout.specs.Layout.{span, form_of, got, within};
ghost use Rattle.wire.specs.Kinds.{table_of};
ghost use Rattle.inspector.specs.Labels.{spelt};
ghost use Rattle.inspector.specs.Shown.{quoted, alpha_text, order_text, content_text, field_text, bytes_text, shown_text};

use crate::labels::{names, title};
use layout::field::{Field, Form};
use layout::reader::Reader;
use std::fmt;
use texts::fixed::FixedText;
use texts::identifiers::OrderId;
use texts::values::Time;
use wire::kinds::Kind;

/// A text in double quotes.
#[derive(Clone, Copy)]
struct Quoted<'a> {
    text: &'a [u8],
    ghost printable: { all_printable text.now ≡ true },
}

impl fmt::Display for Quoted<'_> {
    ghost output = { λ quote. Some (quoted quote.text.now) };

    #[tactic(auto, using(crate::proofs::Ascii::printable_utf8))]
    fn fmt<W: fmt::Write>(&self, f: &mut fmt::Formatter<W>) -> fmt::Result {
        let text = str::from_utf8(self.text).unwrap();
        write!(f, "\"{text}\"")
    }
}

#[tactic(auto, using(texts::proofs::Padding::said_printable))]
fn in_quotes(text: &FixedText<12>) -> Quoted<'_>
    ensures { result.text.now ≡ said text.now.bytes }
{
    Quoted {
        text: text.as_bytes(),
    }
}

/// An order's identifier, or nothing, in double quotes.
#[derive(Clone, Copy)]
struct Identifier(Option<OrderId>);

impl fmt::Display for Identifier {
    ghost output = { λ order. Some (order_text (option_map (λ i. i.number) order.0)) };

    #[tactic(auto, using(crate::proofs::Says::said_order_id))]
    fn fmt<W: fmt::Write>(&self, f: &mut fmt::Formatter<W>) -> fmt::Result {
        match self.0 {
            None => f.write_str("\"\""),
            Some(id) => {
                let text = id.text();
                write!(f, "{}", in_quotes(&text))
            }
        }
    }
}

/// A byte that is a character.
#[derive(Clone, Copy)]
struct Alpha(u8);

impl fmt::Display for Alpha {
    ghost output = { λ byte. Some (alpha_text byte.0) };

    fn fmt<W: fmt::Write>(&self, f: &mut fmt::Formatter<W>) -> fmt::Result {
        match self.0 {
            0 => f.write_str("null"),
            0x21..=0x7e => write!(f, "{}", char::from(self.0)),
            _ => write!(f, "0x{:X}{:X}", self.0 / 16, self.0 % 16),
        }
    }
}

/// A time as the one number that its eight bytes write.
fn stamp(time: Time) -> u64
    ensures { result ≡ time.seconds + 4294967296 * time.microseconds }
{
    u64::from(time.seconds) + 4294967296 * u64::from(time.microseconds)
}

/// What one field holds in bytes that are long enough for it.
#[derive(Clone, Copy)]
struct FieldText<'a> {
    field: Field,
    reader: Reader<'a>,
    ghost inside: { span field ≤ length reader.src.now },
}

impl fmt::Display for FieldText<'_> {
    ghost output = { λ held. Some (content_text (form_of held.field) (got held.reader.src.now held.field)) };

    fn fmt<W: fmt::Write>(&self, f: &mut fmt::Formatter<W>) -> fmt::Result {
        let at = self.field.at();
        let r = &self.reader;
        if !self.field.matters(r) {
            return f.write_str("ignored");
        }
        match self.field.form() {
            Form::Text(width) | Form::Name(width) => write!(f, "{}", quote(r, at, width)),
            Form::Order => write!(f, "{}", Identifier(r.order(at))),
            Form::UInt32 | Form::Sequence => write!(f, "{}", r.u32(at)),
            Form::UInt64 => write!(f, "{}", r.u64(at)),
            Form::Int8 => write!(f, "{}", r.i8(at)),
            Form::Int32 => write!(f, "{}", r.i32(at)),
            Form::Price => write!(f, "{}", r.price(at)),
            Form::Time => write!(f, "{}", stamp(r.time(at))),
            Form::Code(codes) if codes.is_alpha() => write!(f, "{}", Alpha(r.u8(at))),
            Form::Code(_) => write!(f, "{}", r.u8(at)),
            Form::Alpha => write!(f, "{}", Alpha(r.u8(at))),
            Form::Reserved(_) => f.write_str("ignored"),
        }
    }
}

// What a field says, in double quotes.
#[tactic(auto, using(texts::proofs::Padding::said_printable))]
fn quote<'a>(r: &Reader<'a>, at: usize, width: usize) -> Quoted<'a>
    requires { at + width ≤ length r.now.src.now }
    ensures { result.text.now ≡ said (part at width r.now.src.now) }
{
    Quoted {
        text: r.said(at, width),
    }
}

/// A space, the name of a field and what it holds; nothing where the field is reserved.
#[derive(Clone, Copy)]
struct Named<'a> {
    name: &'static str,
    held: FieldText<'a>,
}

impl fmt::Display for Named<'_> {
    ghost output = { λ named. let field = named.held.field in
        Some (field_text named.name.now (form_of field) (got named.held.reader.src.now field)) };

    fn fmt<W: fmt::Write>(&self, f: &mut fmt::Formatter<W>) -> fmt::Result {
        if let Form::Reserved(_) = self.held.field.form() {
            return Ok(());
        }
        write!(f, " {}={}", self.name, self.held)
    }
}

/// One field after the other, each under its name.
#[derive(Clone, Copy)]
struct Fields<'a> {
    names: &'static [&'static str],
    table: &'static [Field],
    reader: Reader<'a>,
    ghost inside: { within (length reader.src.now) table.now ≡ true },
}

impl fmt::Display for Fields<'_> {
    ghost output = { λ all. Some (bytes_text (spelt all.names.now) all.table.now all.reader.src.now) };

    fn fmt<W: fmt::Write>(&self, f: &mut fmt::Formatter<W>) -> fmt::Result {
        for (name, field) in self.names.iter().zip(self.table) {
            let held = FieldText {
                field: *field,
                reader: self.reader,
            };
            write!(f, "{}", Named { name, held })?;
        }
        Ok(())
    }
}

/// A message of a kind, by its checked bytes.
#[derive(Clone, Copy)]
pub(crate) struct Shown<'a> {
    pub(crate) kind: Kind,
    pub(crate) reader: Reader<'a>,
    ghost inside: { within (length reader.src.now) (table_of kind) ≡ true },
}

impl fmt::Display for Shown<'_> {
    ghost output = { λ shown. Some (shown_text shown.kind shown.reader.src.now) };

    fn fmt<W: fmt::Write>(&self, f: &mut fmt::Formatter<W>) -> fmt::Result {
        let fields = Fields {
            names: names(self.kind),
            table: self.kind.table(),
            reader: self.reader,
        };
        write!(f, "{}{fields}", title(self.kind))
    }
}
