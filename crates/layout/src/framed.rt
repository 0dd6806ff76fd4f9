// What a message is to its reader and its writer, and the one reader and the one writer of all.
ghost use Rattle.std.specs.Prelude.{◌≡◌, ◌≤◌, ℕ, true, List, length};
ghost use Rattle.layout.specs.Layout.{Content, Body, Checked, AllOk, Says, all_good, text_places};
ghost use Rattle.layout.specs.Shapes.{Laid, Shaped, well_laid, laid};
ghost use Rattle.layout.specs.Published.{Published, published_of};
ghost use Rattle.layout.specs.Writing.{Wrote, over_all};
ghost use Rattle.layout.specs.Holding.{HoldsIn};

use crate::check::check;
use crate::fault::Fault;
use crate::field::Field;
use crate::put::put_header;
use crate::reader::Reader;

/// How the messages of a type are laid out.
#[derive(Clone, Copy)]
pub struct Shape {
    /// The byte that names the type.
    pub letter: u8,
    /// How many bytes a message has in all.
    pub total: u16,
    /// The fields, one behind the other.
    pub table: &'static [Field],
}

impl Shape {
    /// A type byte, how many bytes a message has, and its fields.
    pub const fn new(letter: u8, total: u16, table: &'static [Field]) -> Shape
        ensures { Shaped (laid letter total table.now) result }
    {
        Shape {
            letter,
            total,
            table,
        }
    }
}

/// How a message's bytes are laid out: as a table that its reader and its writer go by, and as it is published.
pub trait Layout {
    // its type byte, its bytes in all, and its table
    ghost shape: { Laid };

    // the same as it is published, in literals
    ghost published: { Published };

    /// The type byte, how many bytes such a message has, and its table.
    fn shape() -> Shape
        ensures { Shaped shape result };

    /// Whether all fields hold what their forms ask for: each is looked at where it stands, in one test of them all.
    fn good(r: &Reader<'_>) -> bool
        requires { length r.now.src.now ≡ shape.total }
        ensures { result ≡ all_good shape.table r.now.src.now };

    /// The check of all fields: the first that does not hold what its form asks for is refused. The table is walked only
    /// to find that field, once it is known that there is one.
    #[tactic(auto, using(crate::proofs::Tables::good_passes))]
    fn check(r: &Reader<'_>) -> Result<(), Fault>
        requires { length r.now.src.now ≡ shape.total }
        ensures { Checked shape.table r.now.src.now result }
    {
        if Self::good(r) {
            return Ok(());
        }
        let shape = Self::shape();
        check(shape.table, usize::from(shape.total), r)
    }

    // its fields fill it to the end behind the header, and each stands within it
    ghost fits: { well_laid shape ≡ true };

    // it is laid out as it is published
    ghost as_published: { published_of shape ≡ published };
}

/// A message by its layout: what its fields hold, and where its texts stand.
pub trait Framed<'a>: Layout {
    // what each field of the table holds
    ghost contents: { Self → List Content };

    // where each text stands in the bytes that it was read from
    ghost places: { Self → List ℕ };

    /// The fields of bytes that the check has passed.
    fn fields(r: &Reader<'a>) -> Self
    where
        Self: Sized,
        requires room { length r.now.src.now ≡ Self.shape.total }
        requires passed { AllOk Self.shape.table r.now.src.now }
        ensures says { Says (contents result) Self.shape.table r.now.src.now }
        ensures placed { places result ≡ text_places Self.shape.table r.now.src.now };

    /// Writes each field at its place.
    fn put(&self, out: &mut [u8])
        requires { Self.shape.total ≤ length out.old }
        ensures wrote { out.new ≡ over_all Self.shape.table (contents self.now) out.old }
        ensures holds { HoldsIn Self.shape.table (contents self.now) };
}

/// Reads a message, or says which field is the first bad one. Each type's own reading stands out of line, so that what it
/// found is written once where the caller wants it.
#[inline(never)]
pub fn read<'a, M: Framed<'a>>(r: &Reader<'a>) -> Result<M, Fault>
    requires { length r.now.src.now ≡ M.shape.total }
    ensures { Body M.shape.table M.contents M.places r.now.src.now result }
{
    let shape = M::shape();
    // all bytes, cut to as many as there are, so that the compiler knows the number
    let r = Reader {
        src: &r.src[..usize::from(shape.total)],
    };
    M::check(&r)?;
    Ok(M::fields(&r))
}

/// Writes a message to the front of a buffer; the bytes past it stay.
#[tactic(auto, using(crate::proofs::Wholes::whole))]
pub fn write<'a, M: Framed<'a>>(m: &M, out: &mut [u8])
    requires { M.shape.total ≤ length out.old }
    ensures wrote { Wrote M.shape.letter M.shape.total M.shape.table (M.contents m.now) out.old out.new }
    ensures holds { HoldsIn M.shape.table (M.contents m.now) }
{
    let shape = M::shape();
    put_header(out, shape.letter, shape.total);
    m.put(out);
}
