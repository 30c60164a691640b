// One occurrence after another.
ghost use Rattle.judging.specs.Judging.{step};
ghost use Rattle.typing.specs.Holding.{held, Room, Judged, Stepped};

use super::super::fault::CheckFault;
use super::super::given::Given;
use super::super::misfit::Misfit;
use super::Checker;
use super::nodes::{OverOne, OverTwo};
use grammar::occurrence::{Occurrence, What};
use types::node::TypeNode;

impl Checker {
    fn judge(&mut self, what: What) -> Result<(), Misfit>
        requires { Room (held self.old) }
        ensures { Stepped what (held self.old) self.new result }
    {
        let (int, bool) = (self.types.int(), self.types.bool());
        match what {
            What::Variable(name) => self.variable(name),
            What::IfFork => self.if_fork(),
            What::IfJoin => self.if_join(),
            What::EachFork(name) => self.each_fork(name),
            What::EachJoin => self.each_join(),
            What::Operate(op) => self.over_two(OverTwo::Operate(op)),
            What::Index => self.over_two(OverTwo::Index),
            What::Pair => self.over_two(OverTwo::Pair),
            What::Part => self.over_two(OverTwo::Part),
            What::Apply(op) => self.over_one(OverOne::Apply(op)),
            What::Scan(op) => self.over_one(OverOne::Scan(op)),
            What::Reduce(op) => self.over_one(OverOne::Reduce(op)),
            What::List(n) => self.list(n),
            What::Empty => self.empty(),
            What::Parameter(name) => self.parameter(name),
            What::Result => self.result(),
            What::Number(_) => Ok(self.leaf(int)),
            What::True | What::False => Ok(self.leaf(bool)),
            What::Bind(name) => Ok(self.bind(name)),
            What::LetEnd => Ok(self.let_end()),
            What::IfElse => Ok(self.mark()),
            What::EachFilter => Ok(self.each_filter()),
            What::Group => Ok(self.group()),
            What::TypeInt => Ok(self.put(0, Given::Code(int))),
            What::TypeBool => Ok(self.put(0, Given::Code(bool))),
            What::TypePair => {
                let pair = TypeNode::Pair(self.top(1), self.top(0));
                Ok(self.put(2, Given::Node(pair)))
            }
            What::TypeList => Ok(self.put(1, Given::Node(TypeNode::List(self.top(0))))),
        }
    }

    // One occurrence.
    pub(super) fn judge_one(&mut self, o: Occurrence) -> Result<(), CheckFault>
        requires { Room (held self.old) }
        ensures { Judged (step o.what o.place (held self.old)) self.new result }
    {
        self.judge(o.what).map_err(|misfit| misfit.at(o.place))
    }
}
