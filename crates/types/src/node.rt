// A type as the table holds it.
// What a type is made of; its halves or its elements' type by their codes.
#[derive(Clone, Copy, PartialEq, Eq)]
pub enum TypeNode {
    Int,
    Bool,
    Pair(usize, usize),
    List(usize),
}

// A type, with the number of its parts up to a million.
#[derive(Clone, Copy, PartialEq, Eq)]
pub struct Entry {
    pub node: TypeNode,
    pub count: usize,
}
