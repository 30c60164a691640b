// Reading the text of a value, part by part.
ghost use Rattle.types.specs.Types.{pair, list};
ghost use Rattle.types.specs.TypeRefs.{meant};
ghost use Rattle.texts.specs.Phrases.{ReadsType};

use crate::reader::Reader;
use monoid::int::Int;
use types::type_ref::{Shape, TypeRef};
use values::front::Stopped;
use values::sign::Sign;

impl<'a> Reader<'a> {
    // Reads a pair.
    #[cycle(phrases)]
    fn pair(&mut self, left: TypeRef<'_>, right: TypeRef<'_>) -> Result<(), Stopped>
        ensures { ReadsType (pair (meant left.entry) (meant right.entry)) self.old self.new result }
    {
        self.expect(b'(')?;
        self.value(left)?;
        self.expect(b',')?;
        self.value(right)?;
        self.expect(b')')
    }

    // Reads a list. Its length is stored when it is known.
    #[cycle(phrases)]
    fn list(&mut self, element: TypeRef<'_>) -> Result<(), Stopped>
        ensures { ReadsType (list (meant element.entry)) self.old self.new result }
    {
        let header = self.open_list()?;
        let mut count = Int::zero();
        let mut more = !self.take(b']');
        while more {
            self.value(element)?;
            count = count.wrapping_add(Int::one());
            more = self.sign()? == Sign::Comma;
        }
        self.store(header, count);
        Ok(())
    }

    // Reads a value of a type.
    #[cycle(phrases)]
    pub fn value(&mut self, t: TypeRef<'_>) -> Result<(), Stopped>
        ensures { ReadsType (meant t.entry) self.old self.new result }
    {
        match t.shape() {
            Shape::Int => self.scalar::<Int>(),
            Shape::Bool => self.scalar::<bool>(),
            Shape::Pair(left, right) => self.pair(left, right),
            Shape::List(element) => self.list(element),
        }
    }
}
