// The plan of a program.
ghost use Rattle.std.specs.Prelude.{◌≡◌, ◌≤◌, map, length};
ghost use Rattle.types.specs.Table.{types_in};
ghost use Rattle.lang.specs.Check.{Checked};
ghost use Rattle.typing.specs.Codes.{note_of};
ghost use Rattle.program.specs.Answers.{Is};
ghost use Rattle.plan.specs.Filling.{empty, run, typed};
ghost use Rattle.plan.specs.Holding.{held, entries_of, frees_of, Plans};

use super::Plan;
use grammar::occurrence::Occurrence;
use program::checked::CheckedProgram;
use types::table::TypeTable;
use typing::parts::Note;

impl Plan {
    // All occurrences, each with its note.
    fn add_all(&mut self, types: &TypeTable, occurrences: &[Occurrence], notes: &[Note])
        requires new { held self.old ≡ empty }
        requires few { length occurrences.now ≤ 1024 }
        requires frees { length (run (typed occurrences.now (map (note_of (types_in types.now)) notes.now)) empty).frees ≤ 2000 }
        ensures holds { held self.new ≡ run (typed occurrences.now (map (note_of (types_in types.now)) notes.now)) empty }
        ensures few { length (held self.new).entries ≤ 1024 }
    {
        for (o, note) in occurrences.iter().zip(notes) {
            self.step(*o, types.get(note.code), note.index);
        }
    }

    // The plan of the program, in place of what it held. There is room for every program.
    pub fn fill(&mut self, program: &CheckedProgram)
        ensures plans { (c : Checked) → Is program.now c → Plans self.new c }
        ensures entries { length (entries_of self.new) ≤ 1024 }
        ensures frees { length (frees_of self.new) ≤ 2000 }
    {
        self.clear();
        self.add_all(program.types(), program.occurrences(), program.notes());
    }
}
