// One occurrence after another.
ghost use Rattle.std.specs.Prelude.{◌≡◌, ◌≤◌, length, pos};
ghost use Rattle.monoid.specs.Ints.{int_of};
ghost use Rattle.types.specs.TypeRefs.{meant};
ghost use Rattle.judging.specs.Acts.{resolved};
ghost use Rattle.plan.specs.declared.table.Task.TheVariants.{MakePair, Bracket};
ghost use Rattle.plan.specs.Filling.{elements_boxed, first_boxed, second_boxed, unary, one};
ghost use Rattle.plan.specs.Holding.{held, Room};

use super::super::boxes::{boxed, elements_boxed, first_boxed, inner_boxed, second_boxed};
use super::super::table::{Mark, Span, Task};
use super::Plan;
use grammar::occurrence::{Occurrence, Unary, What};
use monoid::int::Int;
use types::type_ref::TypeRef;
use typing::parts::Use;

// The int that a number of a program is.
fn number(value: u32) -> Int
    ensures { result ≡ int_of (pos value) }
{
    Int::new(value.cast_signed())
}

// The task of a word before an operand, by the type of its result.
fn task(op: Unary, t: TypeRef<'_>) -> Task
    ensures { result ≡ unary op (meant t.entry) }
{
    match op {
        Unary::Fst => Task::First { boxed: boxed(t) },
        Unary::Snd => Task::Second { boxed: boxed(t) },
        Unary::Len => Task::Length,
        Unary::Range => Task::Range,
        Unary::Flat => Task::Flat,
    }
}

// The task of a pair, by its type.
fn pair(t: TypeRef<'_>) -> Task
    ensures { result ≡ MakePair (first_boxed (meant t.entry)) (second_boxed (meant t.entry)) }
{
    let first = first_boxed(t);
    let second = second_boxed(t);
    Task::MakePair { first, second }
}

// The task of a list in brackets, by its type.
fn bracket(count: usize, t: TypeRef<'_>) -> Task
    ensures { result ≡ Bracket count (elements_boxed (meant t.entry)) }
{
    let boxed = elements_boxed(t);
    Task::Bracket { count, boxed }
}

impl Plan {
    // One occurrence, with the type that was noted of it, and of a variable how many stand inside it.
    pub(super) fn step(&mut self, o: Occurrence, t: TypeRef<'_>, index: usize)
        requires room { Room (held self.old) }
        requires frees { length (one (resolved o (record { type = meant t; index = index })) (held self.old)).frees ≤ 2000 }
        ensures { held self.new ≡ one (resolved o (record { type = meant t.entry; index = index })) (held self.old) }
    {
        let Occurrence { what, place } = o;
        // jumps and free variables come with the join
        let (join, second) = (0, 0);
        let frees = Span { from: 0, to: 0 };
        match what {
            What::Number(value) => self.add(Mark::Leaf(number(value)).at(place)),
            What::True => self.add(Mark::Leaf(Int::one()).at(place)),
            What::False => self.add(Mark::Leaf(Int::zero()).at(place)),
            What::Variable(_) => {
                let depth = self.depth();
                self.log(Use { depth, index });
                self.add(Mark::Variable(index).at(place));
            }
            What::Bind(_) => {
                self.add(Mark::Bind.at(place));
                self.enter(boxed(t));
            }
            What::LetEnd => {
                self.add(Mark::LetEnd.at(place));
                self.leave();
            }
            What::IfFork => {
                self.add(Mark::IfFork { second, frees }.at(place));
                self.open();
            }
            What::IfElse => {
                self.add(Mark::IfElse { join }.at(place));
                self.halve();
            }
            What::IfJoin => self.if_join(boxed(t), place),
            What::EachFork(_) => {
                self.add(Mark::EachFork { join, frees }.at(place));
                self.open();
                self.enter(elements_boxed(t));
            }
            What::EachFilter => {
                self.add(Mark::EachFilter { join }.at(place));
                self.halve();
            }
            What::EachJoin => self.each_join(elements_boxed(t), place),
            What::Operate(op) => self.add(Task::Operate(op).at(place)),
            What::Apply(op) => self.add(task(op, t).at(place)),
            What::Index => self.add(Task::Index { boxed: boxed(t) }.at(place)),
            What::Group => self.add(Mark::Group.at(place)),
            What::Pair => self.add(pair(t).at(place)),
            What::List(count) => self.add(bracket(count, t).at(place)),
            What::Empty => self.add(Task::Hollow.at(place)),
            What::Part => {
                let boxed = inner_boxed(t);
                self.add(Task::Part { boxed }.at(place));
            }
            What::Scan(op) => self.add(Task::Scan(op).at(place)),
            What::Reduce(op) => self.add(Task::Reduce(op).at(place)),
            What::Parameter(_) => self.enter(boxed(t)),
            What::TypeInt | What::TypeBool | What::TypePair | What::TypeList | What::Result => {}
        }
    }
}
