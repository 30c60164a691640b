// The stack of types.
ghost use Rattle.std.specs.Prelude.{◌≡◌, ◌+◌, ◌^◌, ◌<◌, ◌≤◌, [], ◌∷◌, length};
ghost use Rattle.types.specs.TypeRefs.{meant};
ghost use Rattle.judging.specs.Notes.{note as note_on};
ghost use Rattle.judging.specs.Judging.{top as top_of, mark as mark_of, pushed, popped, noted, weighing};
ghost use Rattle.typing.specs.Codes.{given_type};
ghost use Rattle.typing.specs.Holding.{held, known, type_in, over, Room};

use super::super::given::Given;
use super::super::parts::Note;
use super::Checker;
use types::type_ref::TypeRef;

impl Checker {
    // The code that stands k below the top, or that of int.
    pub(super) fn top(&self, k: usize) -> usize
        ensures within { result < length (known self.now) }
        ensures is { type_in self.now result ≡ top_of (popped k (held self.now)) }
    {
        let below = &self.stack.as_slice()[..self.stack.len().saturating_sub(k)];
        below.last().copied().unwrap_or(self.types.int())
    }

    // The type that stands k below the top, or int.
    pub(super) fn operand(&self, k: usize) -> TypeRef<'_>
        ensures { meant result ≡ top_of (popped k (held self.now)) }
    {
        TypeRef {
            table: &self.types,
            code: self.top(k),
        }
    }

    // The uppermost goes.
    pub(super) fn pop(&mut self)
        ensures { held self.new ≡ popped 1 (held self.old) }
    {
        let _ = self.stack.pop();
    }

    // Notes what stands uppermost.
    pub(super) fn mark(&mut self)
        requires { length (held self.old).notes < 1025 }
        ensures { held self.new ≡ mark_of (held self.old) }
    {
        let code = self.top(0);
        self.notes.push_reserved(Note { code, index: 0 });
    }

    // A type of the table stands uppermost, and is noted.
    pub(super) fn show(&mut self, note: Note)
        requires { Room (held self.old) }
        ensures holds { held self.new ≡ noted (record { type = type_in self.old note.code; index = note.index } ∷ []) (pushed (type_in self.old note.code) (held self.old)) }
        ensures uses { self.new.uses ≡ self.old.uses }
    {
        let code = self.types.known(note.code);
        self.notes.push_reserved(Note { code, ..note });
        self.stack.push_reserved(code);
    }

    // A given type takes the place of the k uppermost, and is noted. Inlined, as all that adds to the table is, so that
    // what the checker holds can stand in registers.
    #[inline(always)]
    pub(super) fn put(&mut self, k: usize, given: Given)
        requires { Room (held self.old) }
        ensures { held self.new ≡ noted (note_on (given_type (known self.old) given)) (pushed (given_type (known self.old) given) (popped k (held self.old))) }
    {
        let below = self.stack.len().saturating_sub(k);
        let code = given.intern(&mut self.types);
        self.notes.push_reserved(Note { code, index: 0 });
        self.stack.truncate(below);
        self.stack.push_reserved(code);
    }

    pub(super) fn weigh(&mut self, n: usize)
        requires { (held self.old).weight + n < 2 ^ 64 }
        ensures { held self.new ≡ weighing n (held self.old) }
    {
        self.weight += n;
    }

    // A node of this type over the k uppermost, which have so many parts.
    #[inline(always)]
    pub(super) fn node(&mut self, k: usize, parts: usize, given: Given)
        requires { Room (held self.old) × (parts ≤ 2 ^ 40) }
        ensures { held self.new ≡ over k parts (given_type (known self.old) given) (held self.old) }
    {
        self.put(k, given);
        let size = self.operand(0).parts();
        self.weigh(1 + parts + size);
    }
}
