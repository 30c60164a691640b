// Lists in brackets.
ghost use Rattle.std.specs.Prelude.{◌≡◌, map};
ghost use Rattle.lang.specs.Rules.{list_rule};
ghost use Rattle.judging.specs.Judging.{operands};
ghost use Rattle.typing.specs.Codes.{type_at};
ghost use Rattle.typing.specs.Holding.{held, known, Ruled};

use super::super::elements::one_type;
use super::super::given::Given;
use super::super::misfit::{Misfit, ensure};
use super::{Checker, MAX_PARTS};
use types::node::TypeNode;

impl Checker {
    // The n uppermost, by their codes, from the lowest on.
    pub(super) fn operands(&self, n: usize) -> &[usize]
        ensures { map (type_at (known self.now)) result.now ≡ operands n (held self.now) }
    {
        let codes = self.stack.as_slice();
        &codes[codes.len().saturating_sub(n)..]
    }

    // The type of a list of the n uppermost.
    pub(super) fn list_type(&self, n: usize) -> Result<Given, Misfit>
        ensures { Ruled (list_rule (operands n (held self.now))) self.now result }
    {
        let elements = self.operands(n);
        let Some((first, rest)) = elements.split_first() else {
            return Err(Misfit::Unfit);
        };
        ensure(one_type(&self.types, rest, *first), Misfit::Unfit)?;
        ensure(elements.len() <= MAX_PARTS, Misfit::TooLarge)?;
        self.limited(TypeNode::List(*first))
    }
}
