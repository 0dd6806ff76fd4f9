// Heartbeat: type 0, 4 bytes.
ghost use Rattle.std.specs.Prelude.{◌≡◌, length, refl};
ghost use Rattle.layout.specs.Layout.{all_good};
ghost use Rattle.layout.specs.Shapes.{laid};
ghost use Rattle.session_messages.specs.declared.heartbeat.TheConstants.{LETTER, TABLE, TOTAL};
ghost use Rattle.session_messages.specs.Published.{heartbeat_published};

use layout::{Field, Framed, Layout, Reader, Shape};

/// A sign of life.
#[derive(Clone, Copy, Debug)]
pub struct Heartbeat;

const LETTER: u8 = b'0';

const TOTAL: u16 = 4;

const TABLE: [Field; 0] = [];

impl Layout for Heartbeat {
    ghost shape = { laid LETTER TOTAL TABLE };

    ghost published = { heartbeat_published };

    ghost fits = { refl };

    ghost as_published = { refl };

    fn shape() -> Shape {
        Shape::new(LETTER, TOTAL, &TABLE)
    }

    #[tactic(auto, unfolding(layout::specs::Layout::all_good))]
    fn good(_r: &Reader<'_>) -> bool
        requires { length _r.now.src.now ≡ TOTAL }
        ensures { result ≡ all_good TABLE _r.now.src.now }
    {
        true
    }
}

impl<'a> Framed<'a> for Heartbeat {
    ghost use Rattle.session_messages.specs.Session.{heartbeat_contents, heartbeat_places};

    ghost contents = { λ m. heartbeat_contents m };

    ghost places = { λ m. heartbeat_places m };

    fn fields(_r: &Reader<'a>) -> Self {
        Heartbeat
    }

    fn put(&self, _out: &mut [u8]) {}
}
