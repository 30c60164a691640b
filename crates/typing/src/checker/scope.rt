// The variables in scope.
ghost use Rattle.std.specs.Prelude.{◌≡◌, ◌<◌, length, MatchOption};
ghost use Rattle.std.proofs.Math.Option.{none, some};
ghost use Rattle.judging.specs.Judging.{entered, left, find as found_in};
ghost use Rattle.typing.specs.Holding.{held, known, type_in};

use super::super::parts::{Binding, Note};
use super::Checker;
use tokens::kind::Name;

impl Checker {
    // Binds the name to the type.
    pub(super) fn enter(&mut self, name: Name, code: usize)
        requires { length (held self.old).scope < 1025 }
        ensures { held self.new ≡ entered name (type_in self.old code) (held self.old) }
    {
        let code = self.types.known(code);
        self.scope.push_reserved(Binding { name, code });
    }

    // The innermost variable goes.
    pub(super) fn leave(&mut self)
        ensures { held self.new ≡ left (held self.old) }
    {
        let _ = self.scope.pop();
    }

    // The innermost variable of this name: its type's code, and how many stand inside it.
    pub(super) fn find(&self, name: Name) -> Option<Note>
        ensures { MatchOption result (found_in (held self.now).scope name ≡ none) (λ x. (x.code < length (known self.now)) × (found_in (held self.now).scope name ≡ some (x.index, type_in self.now x.code))) }
    {
        let at = self.scope.iter().rposition(|binding| binding.name == name)?;
        Some(Note {
            code: self.scope[at].code,
            index: self.scope.len() - 1 - at,
        })
    }
}
