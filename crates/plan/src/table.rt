// The table that a run follows.
ghost use Rattle.std.specs.Prelude.{◌≡◌};
ghost use Rattle.plan.specs.Filling.{entry};

use grammar::occurrence::{Infix, Operation};
use monoid::int::Int;

// A primitive. A flag says whether a value is boxed: a pair or a list, which one word names by its place.
#[derive(Clone, Copy)]
pub enum Task {
    Operate(Infix),
    // its halves
    MakePair { first: bool, second: bool },
    // the half
    First { boxed: bool },
    Second { boxed: bool },
    // its elements
    Bracket { count: usize, boxed: bool },
    Hollow,
    // the element
    Index { boxed: bool },
    Length,
    Range,
    Flat,
    // the elements of the parts
    Part { boxed: bool },
    Scan(Operation),
    Reduce(Operation),
}

// The free variables of a fork: a part of the list of all.
#[derive(Clone, Copy)]
pub struct Span {
    pub from: usize,
    pub to: usize,
}

// What happens at an occurrence. Jumps name places of the table.
#[derive(Clone, Copy)]
pub enum Mark {
    // a let is left, and its variable goes
    LetEnd,
    // a number, or a truth value as 1 or 0
    Leaf(Int),
    // how many variables stand inside it
    Variable(usize),
    Bind,
    Group,
    Basic(Task),
    // the first occurrence of the second branch, and the free variables of both
    IfFork { second: usize, frees: Span },
    IfElse { join: usize },
    // whether the result is boxed
    IfJoin { boxed: bool },
    // the free variables of filter and body
    EachFork { join: usize, frees: Span },
    EachFilter { join: usize },
    // the first occurrence behind the fork, and whether results are boxed
    EachJoin { first: usize, boxed: bool },
}

#[derive(Clone, Copy)]
pub struct Entry {
    pub mark: Mark,
    pub place: usize,
}

impl Task {
    // The entry of the primitive at this place.
    pub(super) fn at(self, place: usize) -> Entry
        ensures { result ≡ entry (Mark.Basic self) place }
    {
        Mark::Basic(self).at(place)
    }
}

impl Mark {
    // The entry of an occurrence at this place.
    pub(super) fn at(self, place: usize) -> Entry
        ensures { result ≡ entry self place }
    {
        Entry { mark: self, place }
    }
}

// A free variable: how many stand inside it where the fork is, and whether it is boxed.
#[derive(Clone, Copy)]
pub struct Free {
    pub index: usize,
    pub boxed: bool,
}
