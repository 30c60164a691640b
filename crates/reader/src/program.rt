// A whole program: its header, its body, the end.
ghost use Rattle.std.specs.Prelude.{◌≡◌, ◌<◌, ◌≤◌, [], length, vec_capacity, MatchResult, OnOk};
ghost use Rattle.tokens.specs.Kinds.{stopped, unstopped};
ghost use Rattle.grammar.specs.Grammar.{programs};
ghost use Rattle.grammar.specs.Law.{Refuses, Reads};
ghost use Rattle.reader.specs.Faults.{of_parse};
ghost use Rattle.reader.specs.Steps.{Passes};

use super::fault::ParseFault;
use super::parser::Parser;
use grammar::occurrence::{Occurrence, What};
use tokens::kind::{Kind, Token};

impl Parser<'_> {
    pub fn program(&mut self) -> Result<(), ParseFault>
        ensures { Passes programs result self.old self.new }
    {
        self.expect(Kind::Main)?;
        self.expect(Kind::Open)?;
        let name = self.name()?;
        self.expect(Kind::Colon)?;
        let place = self.place();
        self.type_phrase()?;
        self.mark(Kind::Close, What::Parameter(name), place)?;
        self.expect(Kind::Colon)?;
        let into = self.place();
        self.type_phrase()?;
        self.mark(Kind::Equal, What::Result, into)?;
        self.expr()
    }
}

// The occurrences of the program that the tokens are, into the table that the caller lends: empty, with room for one for each token.
// The last of the tokens is the stop: the end, or what stands there in place of a token.
pub fn parse(tokens: &[Token], table: &mut Vec<Occurrence>) -> Result<(), ParseFault>
    requires within { 0 < length tokens.now }
    requires stops { (stopped tokens.now) × (unstopped tokens.now) }
    requires empty { table.old.items ≡ [] }
    requires room { length tokens.now ≤ vec_capacity table.old }
    ensures reads { MatchResult result (λ _. Reads tokens.now table.new.items) (λ f. Refuses tokens.now (of_parse f)) }
    ensures few { OnOk result (length table.new.items < length tokens.now) }
    ensures capacity { vec_capacity table.new ≡ vec_capacity table.old }
{
    let mut p = Parser {
        tokens,
        at: 0,
        table,
    };
    p.program()?;
    match p.peek() {
        Kind::End => Ok(()),
        _ => Err(p.refusal()),
    }
}
