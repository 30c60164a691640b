// What was judged last.
ghost use Rattle.std.specs.Prelude.{◌≡◌, ◌<◌, length, slice_index_or};
ghost use Rattle.types.specs.Types.{int};
ghost use Rattle.lang.specs.Scope.{kinds};
ghost use Rattle.judging.specs.Judging.{top as top_of};
ghost use Rattle.typing.specs.Holding.{held, known, type_in};

use super::super::parts::Note;
use super::Checker;
use types::table::TypeTable;

impl Checker {
    pub fn types(&self) -> &TypeTable
        ensures { result.now ≡ self.now.types }
    {
        &self.types
    }

    // What was noted of each occurrence, by the codes of types.
    pub fn notes(&self) -> &[Note]
        ensures { result.now ≡ self.now.notes.items }
    {
        self.notes.as_slice()
    }

    pub fn weight(&self) -> usize
        ensures { result ≡ (held self.now).weight }
    {
        self.weight
    }

    // The code of the type that stands uppermost: at the end of a program, that of its result.
    pub fn uppermost(&self) -> usize
        ensures within { result < length (known self.now) }
        ensures is { type_in self.now result ≡ top_of (held self.now) }
    {
        self.top(0)
    }

    // The code of the innermost variable's type: at the end of a program, that of its parameter.
    pub fn innermost(&self) -> usize
        ensures within { result < length (known self.now) }
        ensures is { type_in self.now result ≡ slice_index_or (kinds (held self.now).scope) 0 int }
    {
        self.scope
            .last()
            .map_or(self.types.int(), |binding| binding.code)
    }
}
