// Types as the rules give them.
ghost use Rattle.std.specs.Prelude.{◌<◌, length};
ghost use Rattle.types.specs.Table.{types_in, Interned};
ghost use Rattle.typing.specs.Codes.{given_type};

use types::node::TypeNode;
use types::table::TypeTable;

// A type by its code, if the table has it, or by what it is made of.
#[derive(Clone, Copy)]
pub enum Given {
    Code(usize),
    Node(TypeNode),
}

impl Given {
    // Its code in the table. The type is added if it is not there.
    #[inline(always)]
    pub fn intern(self, types: &mut TypeTable) -> usize
        requires { length (types_in types.old) < 1100 }
        ensures { Interned (types_in types.old) (given_type (types_in types.old) self) (types_in types.new) result }
    {
        match self {
            Given::Code(code) => types.known(code),
            Given::Node(node) => types.intern(node),
        }
    }
}
