// Expressions, by descent.
ghost use Rattle.std.specs.Prelude.{◌≡◌, MatchResult};
ghost use Rattle.grammar.specs.Grammar.{word, folder, expressions, tests, chains, sums, linked, posts, atoms, operands};
ghost use Rattle.grammar.specs.Law.{rest, filter};
ghost use Rattle.reader.specs.Faults.{of_parse};
ghost use Rattle.reader.specs.Ranks.{chain_of, fold_of};
ghost use Rattle.reader.specs.Steps.{At, Passes, Filtered, Stops};

use super::fault::ParseFault;
use super::operators::{Fold, Rank, comparison, unary};
use super::parser::Parser;
use grammar::occurrence::{Unary, What};
use tokens::kind::Kind;

impl Parser<'_> {
    #[cycle(expressions)]
    pub fn expr(&mut self) -> Result<(), ParseFault>
        ensures { Passes expressions result self.old self.new }
    {
        match self.peek() {
            Kind::Let => self.bind(),
            Kind::If => self.choice(),
            _ => self.test(),
        }
    }

    #[cycle(expressions)]
    fn bind(&mut self) -> Result<(), ParseFault>
        requires { At self.old ≡ Kind.Let }
        ensures { Passes expressions result self.old self.new }
    {
        let place = self.pass();
        let name = self.name()?;
        self.expect(Kind::Equal)?;
        self.expr()?;
        self.mark(Kind::In, What::Bind(name), place)?;
        self.expr()?;
        self.push(What::LetEnd, place);
        Ok(())
    }

    #[cycle(expressions)]
    fn choice(&mut self) -> Result<(), ParseFault>
        requires { At self.old ≡ Kind.If }
        ensures { Passes expressions result self.old self.new }
    {
        let place = self.pass();
        self.expr()?;
        self.mark(Kind::Then, What::IfFork, place)?;
        self.expr()?;
        self.mark(Kind::Else, What::IfElse, place)?;
        self.expr()?;
        self.push(What::IfJoin, place);
        Ok(())
    }

    #[cycle(expressions)]
    fn test(&mut self) -> Result<(), ParseFault>
        ensures { Passes tests result self.old self.new }
    {
        self.chain(Rank::Sums)?;
        let Some(sign) = comparison(self.peek()) else {
            return Ok(());
        };
        let place = self.pass();
        self.comparand()?;
        self.push(What::Operate(sign), place);
        Ok(())
    }

    // The right side of a comparison, which is no comparison itself.
    #[cycle(expressions)]
    fn comparand(&mut self) -> Result<(), ParseFault>
        ensures { Passes (chains sums) result self.old self.new }
    {
        Parser::chain(self, Rank::Sums)
    }

    // Inlined, which spares each nesting a call.
    #[cycle(expressions)]
    #[inline(always)]
    fn chain(&mut self, rank: Rank) -> Result<(), ParseFault>
        ensures { Passes (chains (chain_of rank)) result self.old self.new }
    {
        self.link(rank)?;
        while let Some(sign) = rank.sign(self.peek()) {
            let place = self.pass();
            self.right(rank)?;
            self.push(What::Operate(sign), place);
        }
        Ok(())
    }

    // What signs of a rank join.
    #[cycle(expressions)]
    fn link(&mut self, rank: Rank) -> Result<(), ParseFault>
        ensures { Passes (linked (chain_of rank)) result self.old self.new }
    {
        match rank {
            Rank::Sums => self.chain(Rank::Products),
            Rank::Products => self.post(),
        }
    }

    // The right side of a sign: signs group to the left.
    #[cycle(expressions)]
    fn right(&mut self, of: Rank) -> Result<(), ParseFault>
        ensures { Passes (linked (chain_of of)) result self.old self.new }
    {
        self.link(of)
    }

    #[cycle(expressions)]
    fn post(&mut self) -> Result<(), ParseFault>
        ensures { Passes posts result self.old self.new }
    {
        self.atom()?;
        while self.peek() == Kind::SquareOpen {
            let place = self.pass();
            self.expr()?;
            self.mark(Kind::SquareClose, What::Index, place)?;
        }
        Ok(())
    }

    #[cycle(expressions)]
    fn atom(&mut self) -> Result<(), ParseFault>
        ensures { Passes atoms result self.old self.new }
    {
        match self.peek() {
            Kind::Number(v) => Ok(self.leaf(What::Number(v))),
            Kind::True => Ok(self.leaf(What::True)),
            Kind::False => Ok(self.leaf(What::False)),
            Kind::Name(n) => Ok(self.leaf(What::Variable(n))),
            Kind::Open => self.group(),
            Kind::SquareOpen => self.list(),
            Kind::CurlyOpen => self.each(),
            Kind::Empty => self.empty(),
            Kind::Part => self.part(),
            Kind::Scan => self.fold(Fold::Scan),
            Kind::Reduce => self.fold(Fold::Reduce),
            other => match unary(other) {
                Some(o) => self.apply(o),
                None => Err(self.refusal()),
            },
        }
    }

    #[cycle(expressions)]
    fn group(&mut self) -> Result<(), ParseFault>
        requires { At self.old ≡ Kind.Open }
        ensures { Passes atoms result self.old self.new }
    {
        let place = self.pass();
        self.expr()?;
        if self.accept(Kind::Comma) {
            self.expr()?;
            self.mark(Kind::Close, What::Pair, place)
        } else {
            self.mark(Kind::Close, What::Group, place)
        }
    }

    #[cycle(expressions)]
    fn list(&mut self) -> Result<(), ParseFault>
        requires { At self.old ≡ Kind.SquareOpen }
        ensures { Passes atoms result self.old self.new }
    {
        let place = self.pass();
        self.expr()?;
        let mut n = 1usize;
        while self.accept(Kind::Comma) {
            self.expr()?;
            n += 1;
        }
        self.mark(Kind::SquareClose, What::List(n), place)
    }

    // The body stands before the list in the text, and behind it in the table.
    #[cycle(expressions)]
    fn each(&mut self) -> Result<(), ParseFault>
        requires { At self.old ≡ Kind.CurlyOpen }
        ensures { Passes atoms result self.old self.new }
    {
        let place = self.pass();
        let start = self.added();
        self.expr()?;
        let n = self.added() - start;
        self.expect(Kind::Colon)?;
        let name = self.name()?;
        self.expect(Kind::In)?;
        self.expr()?;
        self.push(What::EachFork(name), place);
        self.filter(place)?;
        self.turn(start, n);
        self.mark(Kind::CurlyClose, What::EachJoin, place)
    }

    // The filter of the comprehension at a place, if it has one.
    #[cycle(expressions)]
    fn filter(&mut self, place: usize) -> Result<(), ParseFault>
        ensures { MatchResult result (λ _. Filtered place self.old self.new) (λ f. Stops (rest filter) self.old self.new (of_parse f)) }
    {
        if !self.accept(Kind::Bar) {
            return Ok(());
        }
        self.expr()?;
        self.push(What::EachFilter, place);
        Ok(())
    }

    #[cycle(expressions)]
    fn part(&mut self) -> Result<(), ParseFault>
        requires { At self.old ≡ Kind.Part }
        ensures { Passes atoms result self.old self.new }
    {
        let place = self.pass();
        self.expect(Kind::Open)?;
        self.expr()?;
        self.expect(Kind::Comma)?;
        self.expr()?;
        self.mark(Kind::Close, What::Part, place)
    }

    #[cycle(expressions)]
    fn apply(&mut self, o: Unary) -> Result<(), ParseFault>
        requires { At self.old ≡ word o }
        ensures { Passes atoms result self.old self.new }
    {
        let place = self.pass();
        self.operand()?;
        self.push(What::Apply(o), place);
        Ok(())
    }

    #[cycle(expressions)]
    fn fold(&mut self, fold: Fold) -> Result<(), ParseFault>
        requires { At self.old ≡ folder (fold_of fold) }
        ensures { Passes atoms result self.old self.new }
    {
        let place = self.pass();
        let o = self.operation()?;
        self.operand()?;
        self.push(fold.what(o), place);
        Ok(())
    }

    // An expression in parentheses, behind a word.
    #[cycle(expressions)]
    fn operand(&mut self) -> Result<(), ParseFault>
        ensures { Passes operands result self.old self.new }
    {
        self.expect(Kind::Open)?;
        self.expr()?;
        self.expect(Kind::Close)
    }
}
