// What a checked program is.
ghost use Rattle.std.specs.Prelude.{◌≡◌, ◌≤◌, map, length};
ghost use Rattle.types.specs.Table.{types_in};
ghost use Rattle.types.specs.TypeRefs.{meant};
ghost use Rattle.lang.specs.Check.{Checked};
ghost use Rattle.judging.specs.Acts.{Resolves};
ghost use Rattle.judging.specs.Occurrences.{program_occs};
ghost use Rattle.typing.specs.Codes.{Under, note_codes, note_of};
ghost use Rattle.program.specs.Answers.{done_in, types_of, noted, Is, IsMemoryOf};

use super::super::memory::Memory;
use super::CheckedProgram;
use grammar::occurrence::Occurrence;
use types::table::TypeTable;
use types::type_ref::TypeRef;
use typing::parts::Note;

impl CheckedProgram {
    // What it does, in the order of evaluation.
    pub fn occurrences(&self) -> &[Occurrence]
        ensures { result.now ≡ done_in self.now }
    {
        self.memory.table.occurrences()
    }

    // Its types; others speak of them by their codes.
    pub fn types(&self) -> &TypeTable
        ensures { result.now ≡ types_of self.now }
    {
        self.memory.checker.types()
    }

    // The type that each occurrence leaves uppermost, and of a variable how many were bound inside it.
    pub fn notes(&self) -> &[Note]
        ensures are { result.now ≡ noted self.now }
        ensures within { Under (length (types_in (types_of self.now))) (note_codes result.now) }
        ensures typed { (c : Checked) → Is self.now c → Resolves (done_in self.now) (map (note_of (types_in (types_of self.now))) result.now) (program_occs c) }
    {
        self.memory.checker.notes()
    }

    // main's parameter type, one of its types.
    pub fn parameter(&self) -> TypeRef<'_>
        ensures table { result.table.now ≡ types_of self.now }
        ensures is { (c : Checked) → Is self.now c → meant result ≡ c.parameter }
    {
        let code = self.memory.checker.innermost();
        TypeRef {
            table: self.types(),
            code,
        }
    }

    // main's result type, one of its types.
    pub fn result(&self) -> TypeRef<'_>
        ensures table { result.table.now ≡ types_of self.now }
        ensures is { (c : Checked) → Is self.now c → meant result ≡ c.result }
    {
        let code = self.memory.checker.uppermost();
        TypeRef {
            table: self.types(),
            code,
        }
    }

    pub fn weight(&self) -> usize
        ensures is { (c : Checked) → Is self.now c → result ≡ c.weight }
        ensures light { result ≤ 2000 }
    {
        self.memory.checker.weight()
    }

    // Its memory, for another program.
    pub fn release(self) -> Memory
        ensures { IsMemoryOf self result }
    {
        let CheckedProgram { memory } = self;
        memory
    }
}
