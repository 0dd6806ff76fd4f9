// What has a name of its own, and lists in which no name stands twice.
ghost use Rattle.std.specs.Prelude.{◌≡◌, List, ℕ};
ghost use Rattle.std.specs.List.{list_any};
ghost use Rattle.std.specs.Str.{bytes_eq};
ghost use Rattle.configuration.specs.Names.{all_differ};

pub(crate) trait Named {
    ghost name_of: { Self → List ℕ };

    fn has_name_of(&self, other: &Self) -> bool
        ensures { result ≡ bytes_eq (name_of self.now) (name_of other.now) };
}

// Whether any of the items has the name of another.
fn has_among<T: Named>(items: &[T], other: &T) -> bool
    ensures { result ≡ list_any (λ x. bytes_eq (T.name_of x) (T.name_of other.now)) items.now }
{
    items.iter().any(|item| item.has_name_of(other))
}

// Whether no two items have one name.
pub(crate) fn all_differ<T: Named>(items: &[T]) -> bool
    ensures { result ≡ all_differ T.name_of items.now }
{
    match items {
        [] => true,
        [first, rest @ ..] => { !has_among(rest, first) && all_differ(rest) }
    }
}
