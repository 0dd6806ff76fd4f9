// The book that an order is for, and the instruction right behind it.
ghost use Rattle.std.specs.Prelude.{◌≡◌, ◌+◌, ◌≤◌, length};
ghost use Rattle.codes.specs.Order.{book_code};
ghost use Rattle.terms.specs.Target.{book_of};
ghost use Rattle.layout.specs.Holding.{HoldsAll};
ghost use Rattle.layout.specs.Layout.{AllOk, Says};
ghost use Rattle.layout.specs.Writing.{over_all};
ghost use Rattle.order_messages.specs.Terms.{target_contents, target_fields};

use codes::order::Book;
use layout::Reader;
use layout::put::{put_blank, put_code};
use terms::target::Target;

pub(crate) fn target_at(r: &Reader<'_>, at: usize) -> Target
    requires room { at + 2 ≤ length r.now.src.now }
    requires good { AllOk (target_fields at) r.now.src.now }
    ensures { Says (target_contents result) (target_fields at) r.now.src.now }
{
    let book: Book = r.code(at);
    match book {
        Book::DarkMidpoint => Target::DarkMidpoint(r.code(at + 1)),
        Book::Integrated => Target::Integrated,
    }
}

// The instruction is null where the book has none.
#[tactic(auto, unfolding(layout::specs::Writing::field_bytes, layout::specs::Layout::taken))]
pub(crate) fn put_target(out: &mut [u8], at: usize, target: &Target)
    requires { at + 2 ≤ length out.old }
    ensures wrote { out.new ≡ over_all (target_fields at) (target_contents target.now) out.old }
    ensures holds { HoldsAll (λ n. book_code (book_of target.now)) (target_fields at) (target_contents target.now) }
{
    put_code(out, at, &target.book());
    match target {
        Target::DarkMidpoint(instruction) => put_code(out, at + 1, instruction),
        Target::Integrated => put_blank(out, at + 1, 1),
    }
}
