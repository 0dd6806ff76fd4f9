// Logon: type A, 80 bytes.
ghost use Rattle.std.specs.Prelude.{◌≡◌, length, refl};
ghost use Rattle.layout.specs.Layout.{all_good};
ghost use Rattle.layout.specs.Shapes.{Shaped, laid};
ghost use Rattle.session_messages.specs.declared.logon.TheConstants.{LETTER, TABLE, TOTAL};
ghost use Rattle.session_messages.specs.Published.{logon_published};

use codes::lists::Codes;
use codes::session::Version;
use layout::put::{put_code, put_text};
use layout::{Field, Form, Framed, Layout, Reader, Shape};
use texts::text::Text;

/// Asks for a session.
#[derive(Clone, Copy, Debug)]
pub struct Logon<'a> {
    pub comp_id: Text<'a, 25>,
    pub password: Text<'a, 25>,
    pub new_password: Text<'a, 25>,
    pub version: Version,
}

const LETTER: u8 = b'A';

const TOTAL: u16 = 80;

const TABLE: [Field; 4] = [
    Field::Always(4, Form::Text(25)),
    Field::Always(29, Form::Text(25)),
    Field::Always(54, Form::Text(25)),
    Field::Always(79, Form::Code(Codes::Versions)),
];

impl Layout for Logon<'_> {
    ghost shape = { laid LETTER TOTAL TABLE };

    ghost published = { logon_published };

    ghost fits = { refl };

    ghost as_published = { refl };

    fn shape() -> Shape
        ensures { Shaped (laid LETTER TOTAL TABLE) result }
    {
        Shape::new(LETTER, TOTAL, &TABLE)
    }

    #[tactic(auto, unfolding(layout::specs::Layout::all_good))]
    fn good(r: &Reader<'_>) -> bool
        requires { length r.now.src.now ≡ TOTAL }
        ensures { result ≡ all_good TABLE r.now.src.now }
    {
        r.is_text(4, 25) & r.is_text(29, 25) & r.is_text(54, 25) & r.is_code::<Version>(79)
    }
}

impl<'a> Framed<'a> for Logon<'a> {
    ghost use Rattle.session_messages.specs.Session.{logon_contents, logon_places};

    ghost contents = { λ m. logon_contents m };

    ghost places = { λ m. logon_places m };

    fn fields(r: &Reader<'a>) -> Self {
        Logon {
            comp_id: r.text(4),
            password: r.text(29),
            new_password: r.text(54),
            version: r.code(79),
        }
    }

    fn put(&self, out: &mut [u8]) {
        put_text(out, 4, &self.comp_id);
        put_text(out, 29, &self.password);
        put_text(out, 54, &self.new_password);
        put_code(out, 79, &self.version);
    }
}
