// The open forks, and the variables used since.
ghost use Rattle.std.specs.Prelude.{◌≡◌, ◌<◌, [], ◌∷◌, length};
ghost use Rattle.judging.specs.Judging.{forked, joined, filtering, noted, pushed, with_forks, uses_at};
ghost use Rattle.typing.specs.Holding.{held, type_in, LastFork, Room};

use super::super::parts::{Fork, Note, Use};
use super::Checker;

impl Checker {
    pub(super) fn open(&mut self)
        requires { (length (held self.old).forks < 1025) × (length (held self.old).scope < 1025) }
        ensures holds { held self.new ≡ forked (held self.old) }
        ensures types { self.new.types ≡ self.old.types }
    {
        self.forks.push_reserved(Fork {
            filtered: false,
            depth: self.scope.len(),
            start: self.uses.len(),
        });
    }

    pub(super) fn close(&mut self)
        ensures { held self.new ≡ joined (held self.old) }
    {
        let _ = self.forks.pop();
    }

    // The innermost fork, or one without variables.
    pub(super) fn last_fork(&self) -> Fork
        ensures { LastFork self.now result }
    {
        self.forks.last().copied().unwrap_or(Fork {
            filtered: false,
            depth: 0,
            start: self.uses.len(),
        })
    }

    // The innermost fork has a filter.
    pub(super) fn filter(&mut self)
        requires { length (held self.old).forks < 1025 }
        ensures { held self.new ≡ filtering (held self.old) }
    {
        let fork = self.last_fork();
        let _ = self.forks.pop();
        self.forks.push_reserved(Fork {
            filtered: true,
            ..fork
        });
    }

    // A variable stands uppermost and is noted, and all forks that it stands outside of have used it now.
    pub(super) fn note_use(&mut self, note: Note)
        requires { Room (held self.old) }
        ensures { held self.new ≡ noted (record { type = type_in self.old note.code; index = note.index } ∷ []) (pushed (type_in self.old note.code) (with_forks (uses_at (length (held self.old).scope) note.index (held self.old).forks) (held self.old))) }
    {
        self.show(note);
        self.uses.push_reserved(Use {
            depth: self.scope.len(),
            index: note.index,
        });
    }
}
