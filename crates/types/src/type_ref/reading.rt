// What a type is.
ghost use Rattle.std.specs.Prelude.{◌≡◌, ◌<◌, MatchOption};
ghost use Rattle.types.specs.Types.{pair, list, NotList, NotPair};
ghost use Rattle.types.specs.Entries.{counted};
ghost use Rattle.types.specs.Table.{type_of};
ghost use Rattle.types.specs.TypeRefs.{meant, Shaped};

use super::super::node::TypeNode;
use super::super::table::TypeTable;
use super::{Shape, TypeRef};

impl TypeTable {
    // The type of a code. A code that the table does not have stands for int.
    pub fn get(&self, code: usize) -> TypeRef<'_>
        ensures { meant result ≡ type_of self.now code }
    {
        TypeRef {
            table: self,
            code: self.known(code),
        }
    }
}

impl<'a> TypeRef<'a> {
    // What it is made of.
    pub fn shape(self) -> Shape<'a>
        ensures { Shaped self.entry result }
    {
        let table = self.table;
        match table.node(self.code) {
            TypeNode::Int => Shape::Int,
            TypeNode::Bool => Shape::Bool,
            TypeNode::Pair(left, right) => {
                Shape::Pair(
                    TypeRef { table, code: left },
                    TypeRef { table, code: right },
                )
            }
            TypeNode::List(element) => Shape::List(TypeRef {
                table,
                code: element,
            }),
        }
    }

    // How many parts it has, or a million if it has more.
    pub fn parts(self) -> usize
        ensures { result ≡ counted (meant self.entry) }
    {
        self.table.parts_at(self.code)
    }

    // The elements' type, if it is a list.
    pub fn element(self) -> Option<TypeRef<'a>>
        ensures { MatchOption result (NotList (meant self.entry)) (λ e. (e.code < self.entry.code) × (meant self.entry ≡ list (meant e))) }
    {
        match self.shape() {
            Shape::List(element) => Some(element),
            _ => None,
        }
    }

    // The types of the halves, if it is a pair.
    pub fn halves(self) -> Option<(TypeRef<'a>, TypeRef<'a>)>
        ensures { MatchOption result (NotPair (meant self.entry)) (λ h. (h.0.code < self.entry.code) × (h.1.code < self.entry.code) × (meant self.entry ≡ pair (meant h.0) (meant h.1))) }
    {
        match self.shape() {
            Shape::Pair(left, right) => Some((left, right)),
            _ => None,
        }
    }
}
