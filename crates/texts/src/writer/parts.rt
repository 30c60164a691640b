// Writing the text of a value, part by part.
ghost use Rattle.types.specs.Types.{pair, list};
ghost use Rattle.types.specs.TypeRefs.{meant};
ghost use Rattle.texts.specs.Writing.{Writes};

use crate::writer::Writer;
use types::type_ref::{Shape, TypeRef};
use values::sign::Sign;

impl<'a> Writer<'a> {
    // Writes a pair.
    #[cycle(parts)]
    fn pair(&mut self, left: TypeRef<'_>, right: TypeRef<'_>)
        ensures { Writes (pair (meant left.entry) (meant right.entry)) self.old self.new }
    {
        self.put(b'(');
        self.value(left);
        self.put(b',');
        self.value(right);
        self.put(b')');
    }

    // Writes a list.
    #[cycle(parts)]
    fn list(&mut self, element: TypeRef<'_>)
        ensures { Writes (list (meant element.entry)) self.old self.new }
    {
        let count = self.next_count();
        self.put(b'[');
        if count > 0 {
            self.value(element);
            for _ in 1..count {
                self.put(Sign::Comma.byte());
                self.value(element);
            }
        }
        self.put(Sign::Bracket.byte());
    }

    // Writes the value of a type whose cells are next.
    #[cycle(parts)]
    pub fn value(&mut self, t: TypeRef<'_>)
        ensures { Writes (meant t.entry) self.old self.new }
    {
        match t.shape() {
            Shape::Int => {
                let cell = self.next_cell();
                self.put_int(cell);
            }
            Shape::Bool => {
                let cell = self.next_cell();
                self.put_bool(!cell.is_zero());
            }
            Shape::Pair(left, right) => self.pair(left, right),
            Shape::List(element) => self.list(element),
        }
    }
}
