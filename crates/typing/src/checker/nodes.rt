// Nodes over operands.
ghost use Rattle.grammar.specs.declared.occurrence.What.{What};
ghost use Rattle.judging.specs.Judging.{one, two};
ghost use Rattle.typing.specs.Nodes.{one_rule, two_rule};
ghost use Rattle.typing.specs.Holding.{held, Room, Placed, Stepped};

use super::super::elements::parts_of;
use super::super::misfit::Misfit;
use super::Checker;
use grammar::occurrence::{Infix, Operation, Unary};
use types::node::TypeNode;

// A node over one operand.
#[derive(Clone, Copy)]
pub enum OverOne {
    Apply(Unary),
    Scan(Operation),
    Reduce(Operation),
}

// A node over two operands.
#[derive(Clone, Copy)]
pub enum OverTwo {
    Operate(Infix),
    Index,
    Pair,
    Part,
}

impl Checker {
    #[inline(always)]
    pub(super) fn over_one(&mut self, op: OverOne) -> Result<(), Misfit>
        requires { Room (held self.old) }
        ensures { Placed (λ p. one p (one_rule op) (held self.old)) self.new result }
    {
        let a = self.top(0);
        let given = self.one_type(op, a)?;
        let parts = self.operand(0).parts();
        self.node(1, parts, given);
        Ok(())
    }

    #[inline(always)]
    pub(super) fn over_two(&mut self, op: OverTwo) -> Result<(), Misfit>
        requires { Room (held self.old) }
        ensures { Placed (λ p. two p (two_rule op) (held self.old)) self.new result }
    {
        let a = self.top(1);
        let b = self.top(0);
        let given = self.two_type(op, a, b)?;
        let parts = self.operand(1).parts() + self.operand(0).parts();
        self.node(2, parts, given);
        Ok(())
    }

    pub(super) fn empty(&mut self) -> Result<(), Misfit>
        requires { Room (held self.old) }
        ensures { Stepped What.Empty (held self.old) self.new result }
    {
        let list = self.limited(TypeNode::List(self.top(0)))?;
        self.node(1, 0, list);
        Ok(())
    }

    pub(super) fn list(&mut self, n: usize) -> Result<(), Misfit>
        requires { Room (held self.old) }
        ensures { Stepped (What.List n) (held self.old) self.new result }
    {
        let list = self.list_type(n)?;
        let parts = parts_of(&self.types, self.operands(n));
        self.node(n, parts, list);
        Ok(())
    }
}
