// Logout: type 5, 24 bytes.
ghost use Rattle.std.specs.Prelude.{◌≡◌, length, refl};
ghost use Rattle.layout.specs.Layout.{all_good};
ghost use Rattle.layout.specs.Shapes.{Shaped, laid};
ghost use Rattle.session_messages.specs.declared.logout.TheConstants.{LETTER, TABLE, TOTAL};
ghost use Rattle.session_messages.specs.Published.{logout_published};

use layout::put::put_text;
use layout::{Field, Form, Framed, Layout, Reader, Shape};
use texts::text::Text;

/// Ends a session.
#[derive(Clone, Copy, Debug)]
pub struct Logout<'a> {
    pub reason: Text<'a, 20>,
}

const LETTER: u8 = b'5';

const TOTAL: u16 = 24;

const TABLE: [Field; 1] = [Field::Always(4, Form::Text(20))];

impl Layout for Logout<'_> {
    ghost shape = { laid LETTER TOTAL TABLE };

    ghost published = { logout_published };

    ghost fits = { refl };

    ghost as_published = { refl };

    fn shape() -> Shape
        ensures { Shaped (laid LETTER TOTAL TABLE) result }
    {
        Shape::new(LETTER, TOTAL, &TABLE)
    }

    #[tactic(auto, unfolding(layout::specs::Layout::all_good))]
    fn good(r: &Reader<'_>) -> bool
        requires { length r.now.src.now ≡ TOTAL }
        ensures { result ≡ all_good TABLE r.now.src.now }
    {
        r.is_text(4, 20)
    }
}

impl<'a> Framed<'a> for Logout<'a> {
    ghost use Rattle.session_messages.specs.Session.{logout_contents, logout_places};

    ghost contents = { λ m. logout_contents m };

    ghost places = { λ m. logout_places m };

    fn fields(r: &Reader<'a>) -> Self {
        Logout { reason: r.text(4) }
    }

    fn put(&self, out: &mut [u8]) {
        put_text(out, 4, &self.reason);
    }
}
