//! Lists of elements under names: where the first of a name is.
ghost use Rattle.std.specs.Prelude.{◌≡◌, ℕ, List, position};
ghost use Rattle.std.specs.Str.{bytes_eq};

use osm_entity::Text;

/// What stands under a name.
pub trait Named {
    /// Its name.
    ghost name: { Self → List ℕ };

    fn name(&self) -> &Text
        ensures { result.now ≡ name self.now };
}

/// Where the first element of this name is.
pub(crate) fn position_of<T: Named>(items: &[T], name: &Text) -> Option<usize>
    ensures { result ≡ position (λ x. bytes_eq name.now (T.name x)) items.now }
{
    items.iter().position(|item| item.name().is(name))
}
