// Which values are boxed, by their types.
ghost use Rattle.std.specs.Prelude.{◌≡◌};
ghost use Rattle.types.specs.TypeRefs.{meant};
ghost use Rattle.plan.specs.Boxes.{boxed as boxed_at};
ghost use Rattle.plan.specs.Filling.{elements_boxed, inner_boxed, first_boxed, second_boxed};

use types::type_ref::{Shape, TypeRef};

// Whether values of a type are boxed.
pub fn boxed(t: TypeRef<'_>) -> bool
    ensures { result ≡ boxed_at (meant t.entry) }
{
    matches!(t.shape(), Shape::Pair(_, _) | Shape::List(_))
}

// Whether the elements of lists of a type are.
pub fn elements_boxed(t: TypeRef<'_>) -> bool
    ensures { result ≡ elements_boxed (meant t.entry) }
{
    t.element().is_some_and(boxed)
}

// Whether the elements of the lists that lists of a type hold are.
pub fn inner_boxed(t: TypeRef<'_>) -> bool
    ensures { result ≡ inner_boxed (meant t.entry) }
{
    t.element().is_some_and(elements_boxed)
}

// Whether the first halves of pairs of a type are.
pub fn first_boxed(t: TypeRef<'_>) -> bool
    ensures { result ≡ first_boxed (meant t.entry) }
{
    t.halves().is_some_and(|(first, _)| boxed(first))
}

// Whether their second halves are.
pub fn second_boxed(t: TypeRef<'_>) -> bool
    ensures { result ≡ second_boxed (meant t.entry) }
{
    t.halves().is_some_and(|(_, second)| boxed(second))
}
