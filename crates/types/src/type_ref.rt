// A type of a table.
mod reading;

ghost use Rattle.std.specs.Prelude.{◌<◌, length};
ghost use Rattle.types.specs.Table.{types_in};

use super::table::TypeTable;

// The table, and the code of the type in it.
#[derive(Clone, Copy)]
pub struct TypeRef<'a> {
    pub table: &'a TypeTable,
    pub code: usize,
    ghost within: { code < length (types_in table.now) },
}

// What a type is made of.
#[derive(Clone, Copy)]
pub enum Shape<'a> {
    Int,
    Bool,
    Pair(TypeRef<'a>, TypeRef<'a>),
    List(TypeRef<'a>),
}
