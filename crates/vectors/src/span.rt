// Where vectors stand among ints.
ghost use Rattle.std.specs.Prelude.{◌≡◌, ◌+◌, ◌^◌, ◌<◌, ◌≤◌, [], ◌∷◌, ◌++◌, length, nat_eq};
ghost use Rattle.std.specs.Cmp.{partial_equiv_from_equiv};
ghost use Rattle.std.specs.Cmp.Lexicographic.{pointwise};
ghost use Rattle.std.specs.Cmp.Rules.{comparing};
ghost use Rattle.std.specs.Iterator.Runs.{EveryRun, ItemsMapTo};
ghost use Rattle.std.specs.Ordering.{on, eq_of_both};
ghost use Rattle.std.specs.Slice.Iter.{iter_rest, iter_steps};
ghost use Rattle.vectors.specs.declared.span.Span.{Span};
ghost use Rattle.vectors.specs.Placing.{extent, entries, spans_of};

use monoid::int::Int;
use std::ops::DerefSlice;
use std::slice::Iter;

// The most vectors that a value has.
pub const MAX_VECTORS: usize = 8;

// A vector stands from `start` on and before `end`.
#[derive(Clone, Copy, PartialEq, Eq, Default)]
pub struct Span {
    pub start: usize,
    pub end: usize,
}

// Where the vectors of a value stand: the first `count` spans. One that counts more than it has holds none.
#[derive(Clone, Copy)]
pub struct Layout {
    pub spans: [Span; MAX_VECTORS],
    pub count: usize,
}

impl Span {
    // How many ints it asks for, whether there are as many or not.
    pub(crate) fn extent(self) -> usize
        ensures { result ≡ extent self }
    {
        self.end.saturating_sub(self.start)
    }

    // The ints that stand there, as far as there are any.
    pub(crate) fn entries(self, ints: &[Int]) -> &[Int]
        ensures { result.now ≡ entries ints.now self }
    {
        let behind = ints.get(self.start..).unwrap_or_default();
        let count = self.extent().min(behind.len());
        &behind[..count]
    }
}

impl Layout {
    // A layout of no vectors.
    pub fn new() -> Layout
        ensures spans { spans_of result ≡ [] }
        ensures count { result.count ≡ 0 }
    {
        Layout {
            spans: [Span::default(); MAX_VECTORS],
            count: 0,
        }
    }

    // Adds a span behind the others.
    pub fn push(&mut self, span: Span)
        requires { self.old.count < 8 }
        ensures spans { spans_of self.new ≡ spans_of self.old ++ (span ∷ []) }
        ensures count { self.new.count ≡ self.old.count + 1 }
    {
        self.spans[self.count] = span;
        self.count += 1;
    }

    // The first `count` spans, or none where it counts more than there are.
    pub fn as_slice(&self) -> &[Span]
        ensures spans { result.now ≡ spans_of self.now }
        ensures few { length result.now ≤ 8 }
    {
        self.spans.get(..self.count).unwrap_or_default()
    }

    // How many vectors there are, never more than 8.
    pub fn len(&self) -> usize
        ensures vectors { result ≡ length (spans_of self.now) }
        ensures few { result ≤ 8 }
    {
        self.as_slice().len()
    }
}

impl DerefSlice for Layout {
    type Elem = Span;

    ghost deref_gives = { λ l spans. (spans ≡ spans_of l) × (length spans ≤ 8) };

    fn deref(&self) -> &[Span] {
        self.as_slice()
    }
}

impl<'a> IntoIterator for &'a Layout {
    type Item = &'a Span;

    type IntoIter = Iter<'a, Span>;

    ghost into_iter_gives = { λ l it. (iter_rest it ≡ spans_of l.now) × (length (iter_rest it) < 2 ^ 64)
        × EveryRun (iter_steps {A = Span}) (λ p. ItemsMapTo p (λ x. x.now) (iter_rest p.from)) };

    fn into_iter(self) -> Iter<'a, Span> {
        self.as_slice().iter()
    }
}

impl Default for Layout {
    ghost is_default = { λ l. spans_of l ≡ [] };

    fn default() -> Layout {
        Layout::new()
    }
}

// Spans behind the first `count` make no difference.
impl PartialEq for Layout {
    ghost eq = { on spans_of (pointwise (eq_of_both (on (λ s. s.start) nat_eq) (on (λ s. s.end) nat_eq))) };

    ghost laws = { partial_equiv_from_equiv (Prim.search comparing) };

    fn eq(&self, other: &Layout) -> bool {
        self.as_slice() == other.as_slice()
    }
}

impl Eq for Layout {
    ghost laws = { Prim.search comparing };
}
