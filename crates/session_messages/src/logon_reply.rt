// Logon Reply: type B, 38 bytes.
ghost use Rattle.std.specs.Prelude.{◌≡◌, length, refl};
ghost use Rattle.layout.specs.Layout.{all_good};
ghost use Rattle.layout.specs.Shapes.{Shaped, laid};
ghost use Rattle.session_messages.specs.declared.logon_reply.TheConstants.{LETTER, TABLE, TOTAL};
ghost use Rattle.session_messages.specs.Published.{logon_reply_published};

use layout::put::{put_i32, put_text};
use layout::{Field, Form, Framed, Layout, Reader, Shape};
use texts::text::Text;

/// The answer to a Logon.
#[derive(Clone, Copy, Debug)]
pub struct LogonReply<'a> {
    /// 0 where the Logon was accepted, else why not.
    pub reject_code: i32,
    /// In how many days the password expires.
    pub expiry_days: Text<'a, 30>,
}

const LETTER: u8 = b'B';

const TOTAL: u16 = 38;

const TABLE: [Field; 2] = [
    Field::Always(4, Form::Int32),
    Field::Always(8, Form::Text(30)),
];

impl Layout for LogonReply<'_> {
    ghost shape = { laid LETTER TOTAL TABLE };

    ghost published = { logon_reply_published };

    ghost fits = { refl };

    ghost as_published = { refl };

    fn shape() -> Shape
        ensures { Shaped (laid LETTER TOTAL TABLE) result }
    {
        Shape::new(LETTER, TOTAL, &TABLE)
    }

    #[tactic(auto, unfolding(layout::specs::Layout::all_good))]
    fn good(r: &Reader<'_>) -> bool
        requires { length r.now.src.now ≡ TOTAL }
        ensures { result ≡ all_good TABLE r.now.src.now }
    {
        r.is_text(8, 30)
    }
}

impl<'a> Framed<'a> for LogonReply<'a> {
    ghost use Rattle.session_messages.specs.Session.{logon_reply_contents, logon_reply_places};

    ghost contents = { λ m. logon_reply_contents m };

    ghost places = { λ m. logon_reply_places m };

    fn fields(r: &Reader<'a>) -> Self {
        LogonReply {
            reject_code: r.i32(4),
            expiry_days: r.text(8),
        }
    }

    fn put(&self, out: &mut [u8]) {
        put_i32(out, 4, &self.reject_code);
        put_text(out, 8, &self.expiry_days);
    }
}
