// What the rules ask of types, and the types that they give.
#![tactic(auto, using(crate::proofs::Rules::unfits))]

ghost use Rattle.std.specs.Prelude.{◌≡◌, ◌<◌, length, cond, nat_le, Result, MatchResult};
ghost use Rattle.std.specs.declared.result.Result.TheVariants.{Ok, Err};
ghost use Rattle.std.proofs.Math.Option.{none};
ghost use Rattle.types.specs.Types.{list, pair, parts, same, NotList, NotPair};
ghost use Rattle.types.specs.Entries.{ty_of};
ghost use Rattle.lang.specs.Expr.{answers, joined};
ghost use Rattle.lang.specs.Rules.{infix_rule, index_rule, part_rule, unary_rule, limit};
ghost use Rattle.typing.specs.Nodes.{one_rule, two_rule};
ghost use Rattle.typing.specs.Holding.{known, type_in, Ruled};
ghost use Rattle.typing.specs.declared.given.Given.TheVariants as given;
ghost use Rattle.typing.specs.declared.misfit.Misfit.TheVariants.{Unfit, TooLarge};

use super::super::given::Given;
use super::super::misfit::{Misfit, ensure};
use super::nodes::{OverOne, OverTwo};
use super::{Checker, MAX_PARTS};
use grammar::occurrence::{Infix, Operation, Unary};
use types::node::TypeNode;

impl Checker {
    // Whether it is the type that is wanted.
    pub(super) fn expect(&self, code: usize, wanted: TypeNode) -> Result<(), Misfit>
        ensures { MatchResult result (λ _. type_in self.now code ≡ ty_of (known self.now) wanted) (λ m. (same (type_in self.now code) (ty_of (known self.now) wanted) ≡ none) × (m ≡ Unfit)) }
    {
        ensure(self.types.is(code, wanted), Misfit::Unfit)
    }

    // The elements' type of a list.
    pub(super) fn element(&self, code: usize) -> Result<usize, Misfit>
        ensures { MatchResult result (λ e. type_in self.now code ≡ list (type_in self.now e)) (λ m. NotList (type_in self.now code) × (m ≡ Unfit)) }
    {
        match self.types.node(code) {
            TypeNode::List(element) => Ok(element),
            _ => Err(Misfit::Unfit),
        }
    }

    // The halves of a pair.
    fn halves(&self, code: usize) -> Result<(usize, usize), Misfit>
        ensures { MatchResult result (λ h. type_in self.now code ≡ pair (type_in self.now h.0) (type_in self.now h.1)) (λ m. NotPair (type_in self.now code) × (m ≡ Unfit)) }
    {
        match self.types.node(code) {
            TypeNode::Pair(left, right) => Ok((left, right)),
            _ => Err(Misfit::Unfit),
        }
    }

    // Whether a type that is made is small enough.
    pub(super) fn limited(&self, node: TypeNode) -> Result<Given, Misfit>
        ensures { result ≡ cond (nat_le (parts (ty_of (known self.now) node)) limit) (Ok (given.Node node)) (Err TooLarge) }
    {
        ensure(self.types.count(node) <= MAX_PARTS, Misfit::TooLarge)?;
        Ok(Given::Node(node))
    }

    // The type that an infix sign answers.
    fn answer(&self, op: Infix) -> usize
        ensures within { result < length (known self.now) }
        ensures is { type_in self.now result ≡ answers op }
    {
        match op {
            Infix::Add | Infix::Subtract | Infix::Multiply | Infix::Divide | Infix::Remainder => {
                self.types.int()
            }
            Infix::Same | Infix::Less => self.types.bool(),
        }
    }

    fn infix_type(&self, op: Infix, a: usize, b: usize) -> Result<Given, Misfit>
        ensures { Ruled (infix_rule op (type_in self.now a) (type_in self.now b)) self.now result }
    {
        self.expect(a, TypeNode::Int)?;
        self.expect(b, TypeNode::Int)?;
        Ok(Given::Code(self.answer(op)))
    }

    fn index_type(&self, a: usize, b: usize) -> Result<Given, Misfit>
        ensures { Ruled (index_rule (type_in self.now a) (type_in self.now b)) self.now result }
    {
        let element = self.element(a)?;
        self.expect(b, TypeNode::Int)?;
        Ok(Given::Code(element))
    }

    // A list, and the lengths that it is cut into.
    fn part_type(&self, a: usize, b: usize) -> Result<Given, Misfit>
        ensures { Ruled (part_rule (type_in self.now a) (type_in self.now b)) self.now result }
    {
        self.element(a)?;
        self.expect(b, TypeNode::List(self.types.int()))?;
        self.limited(TypeNode::List(a))
    }

    fn unary_type(&self, op: Unary, a: usize) -> Result<Given, Misfit>
        ensures { Ruled (unary_rule op (type_in self.now a)) self.now result }
    {
        match op {
            Unary::Fst => {
                let (left, _) = self.halves(a)?;
                Ok(Given::Code(left))
            }
            Unary::Snd => {
                let (_, right) = self.halves(a)?;
                Ok(Given::Code(right))
            }
            Unary::Len => {
                self.element(a)?;
                Ok(Given::Code(self.types.int()))
            }
            Unary::Range => {
                self.expect(a, TypeNode::Int)?;
                Ok(Given::Node(TypeNode::List(a)))
            }
            Unary::Flat => {
                let inner = self.element(a)?;
                self.element(inner)?;
                Ok(Given::Code(inner))
            }
        }
    }

    // The type that an operation joins.
    fn joined(&self, op: Operation) -> TypeNode
        ensures { ty_of (known self.now) result ≡ joined op }
    {
        match op {
            Operation::Sum | Operation::Max | Operation::House => TypeNode::Int,
            Operation::Or => TypeNode::Bool,
            Operation::Lin => TypeNode::Pair(self.types.int(), self.types.int()),
        }
    }

    // The elements' type of a list that an operation folds.
    fn folded(&self, op: Operation, a: usize) -> Result<usize, Misfit>
        ensures { MatchResult result (λ e. (type_in self.now a ≡ list (joined op)) × (type_in self.now e ≡ joined op)) (λ m. (same (type_in self.now a) (list (joined op)) ≡ none) × (m ≡ Unfit)) }
    {
        let element = self.element(a)?;
        self.expect(element, self.joined(op))?;
        Ok(element)
    }

    pub(super) fn one_type(&self, op: OverOne, a: usize) -> Result<Given, Misfit>
        ensures { Ruled (one_rule op (type_in self.now a)) self.now result }
    {
        match op {
            OverOne::Apply(op) => self.unary_type(op, a),
            OverOne::Scan(op) => {
                self.folded(op, a)?;
                Ok(Given::Code(a))
            }
            OverOne::Reduce(op) => Ok(Given::Code(self.folded(op, a)?)),
        }
    }

    pub(super) fn two_type(&self, op: OverTwo, a: usize, b: usize) -> Result<Given, Misfit>
        ensures { Ruled (two_rule op (type_in self.now a) (type_in self.now b)) self.now result }
    {
        match op {
            OverTwo::Operate(op) => self.infix_type(op, a, b),
            OverTwo::Index => self.index_type(a, b),
            OverTwo::Pair => self.limited(TypeNode::Pair(a, b)),
            OverTwo::Part => self.part_type(a, b),
        }
    }
}
