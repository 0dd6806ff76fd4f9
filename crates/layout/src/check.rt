// The check of bytes against a message's layout.
ghost use Rattle.std.specs.Prelude.{◌≡◌, ◌+◌, ◌≤◌, true, length};
ghost use Rattle.texts.specs.Bytes.{part};
ghost use Rattle.layout.specs.Layout.{ok_form, ok, matters, wide, within, span, Checked};

use crate::fault::Fault;
use crate::field::{Field, Form};
use crate::reader::Reader;

impl Form {
    // Whether the bytes at a place are of this form.
    #[tactic(auto, unfolding(crate::specs::Layout::taken))]
    fn good(self, at: usize, r: &Reader<'_>) -> bool
        requires { at + wide self ≤ length r.now.src.now }
        ensures { result ≡ ok_form self (part at (wide self) r.now.src.now) }
    {
        match self {
            Form::Text(width) => r.is_text(at, width),
            Form::Name(width) => r.is_name(at, width),
            Form::Order => r.is_order(at),
            Form::Sequence => r.is_sequence(at),
            Form::Code(codes) => codes.has(r.u8(at)),
            _ => true,
        }
    }
}

impl Field {
    /// Whether the field matters in these bytes.
    #[tactic(auto, unfolding(crate::specs::Layout::taken))]
    pub fn matters(self, r: &Reader<'_>) -> bool
        requires { span self ≤ length r.now.src.now }
        ensures { result ≡ matters r.now.src.now self }
    {
        match self {
            Field::Always(_, _) => true,
            Field::When(_, _, other, codes) => codes.has(r.u8(other)),
        }
    }

    // A field that does not matter is not looked at.
    fn good(self, r: &Reader<'_>) -> bool
        requires { span self ≤ length r.now.src.now }
        ensures { result ≡ ok r.now.src.now self }
    {
        !self.matters(r) || self.form().good(self.at(), r)
    }
}

/// Refuses the first field that the bytes break.
pub fn check(fields: &[Field], total: usize, r: &Reader<'_>) -> Result<(), Fault>
    requires table { within total fields.now ≡ true }
    requires room { total ≤ length r.now.src.now }
    ensures { Checked fields.now r.now.src.now result }
{
    for field in fields {
        if !field.good(r) {
            return Err(Fault::Field(field.at()));
        }
    }
    Ok(())
}
