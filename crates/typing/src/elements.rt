// The elements of a list in brackets, by the codes of their types.
ghost use Rattle.std.specs.Prelude.{◌≡◌, ◌*◌, ◌<◌, ◌≤◌, map, length};
ghost use Rattle.types.specs.Table.{types_in};
ghost use Rattle.judging.specs.Judging.{counted_of};
ghost use Rattle.typing.specs.Codes.{type_at};
ghost use Rattle.typing.specs.Elements.{OneType};

use types::table::TypeTable;

// Whether all have the type of the first.
pub fn one_type(types: &TypeTable, codes: &[usize], first: usize) -> bool
    ensures { OneType result (types_in types.now) codes.now first }
{
    codes.iter().all(|code| types.same(*code, first))
}

// The parts of all.
pub fn parts_of(types: &TypeTable, codes: &[usize]) -> usize
    requires { length codes.now < 1025 }
    ensures is { result ≡ counted_of (map (type_at (types_in types.now)) codes.now) }
    ensures small { result ≤ 1000000 * length codes.now }
{
    codes.iter().map(|code| types.parts(*code)).sum()
}
