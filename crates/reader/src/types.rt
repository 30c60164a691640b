// Types, and the empty list of a type.
ghost use Rattle.std.specs.Prelude.{◌≡◌};
ghost use Rattle.grammar.specs.Grammar.{types, atoms};
ghost use Rattle.reader.specs.Steps.{At, Passes};

use super::fault::ParseFault;
use super::parser::Parser;
use grammar::occurrence::What;
use tokens::kind::Kind;

impl Parser<'_> {
    #[cycle(types)]
    pub fn type_phrase(&mut self) -> Result<(), ParseFault>
        ensures { Passes types result self.old self.new }
    {
        match self.peek() {
            Kind::Int => Ok(self.leaf(What::TypeInt)),
            Kind::Bool => Ok(self.leaf(What::TypeBool)),
            Kind::Open => self.pair_type(),
            Kind::SquareOpen => self.list_type(),
            _ => Err(self.refusal()),
        }
    }

    #[cycle(types)]
    fn pair_type(&mut self) -> Result<(), ParseFault>
        requires { At self.old ≡ Kind.Open }
        ensures { Passes types result self.old self.new }
    {
        let place = self.pass();
        self.type_phrase()?;
        self.expect(Kind::Comma)?;
        self.type_phrase()?;
        self.mark(Kind::Close, What::TypePair, place)
    }

    #[cycle(types)]
    fn list_type(&mut self) -> Result<(), ParseFault>
        requires { At self.old ≡ Kind.SquareOpen }
        ensures { Passes types result self.old self.new }
    {
        let place = self.pass();
        self.type_phrase()?;
        self.mark(Kind::SquareClose, What::TypeList, place)
    }

    pub fn empty(&mut self) -> Result<(), ParseFault>
        requires { At self.old ≡ Kind.Empty }
        ensures { Passes atoms result self.old self.new }
    {
        let place = self.pass();
        self.expect(Kind::Open)?;
        self.type_phrase()?;
        self.mark(Kind::Close, What::Empty, place)
    }
}
