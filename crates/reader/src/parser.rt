// The state of the reader, and its single steps.
ghost use Rattle.std.specs.Prelude.{◌≡◌, ◌+◌, ◌<◌, ◌≤◌, length, vec_len, vec_capacity};
ghost use Rattle.tokens.specs.Kinds.{stopped};

use super::fault::ParseFault;
use super::operators::operation;
use grammar::occurrence::{Occurrence, Operation, What};
use tokens::fault::TokenFault;
use tokens::kind::{Kind, Name, Token};

// The tokens end with a stop; those before the place are read, and what they say stands in the table. It has room for an
// occurrence for each token that is left.
#[derive(Drop)]
pub struct Parser<'a> {
    pub tokens: &'a [Token],
    pub at: usize,
    pub table: &'a mut Vec<Occurrence>,
    ghost within: { at < length tokens.now },
    ghost ends: { stopped tokens.now },
    ghost room: { vec_len table.now + length tokens.now ≤ vec_capacity table.now + at },
}

impl Parser<'_> {
    ghost use Rattle.std.specs.Prelude.{◌∷◌, [], false, MatchBool, MatchResult, ◌≢◌};
    ghost use Rattle.tokens.specs.Kinds.{is_stop};
    ghost use Rattle.grammar.specs.Tree.{occ};
    ghost use Rattle.grammar.specs.Grammar.{joint};
    ghost use Rattle.grammar.specs.Law.{refusal_at, one, a_name, a_joint};
    ghost use Rattle.reader.specs.Faults.{of_parse};
    ghost use Rattle.reader.specs.Steps.{At, Here, Spare, Moved, Took, Turned, Stops};

    pub fn peek(&self) -> Kind
        ensures { result ≡ At self.now }
    {
        self.tokens[self.at].kind
    }

    // The place in the text of the token at hand.
    pub fn place(&self) -> usize
        ensures { result ≡ Here self.now }
    {
        self.tokens[self.at].at
    }

    // How many occurrences stand in the table.
    pub fn added(&self) -> usize
        ensures { result ≡ vec_len self.now.table.now }
    {
        self.table.len()
    }

    // The refusal of the token at hand.
    pub fn refusal(&self) -> ParseFault
        ensures { of_parse result ≡ refusal_at self.now.tokens.now self.now.at }
    {
        let place = self.place();
        match self.peek() {
            Kind::NoToken => ParseFault::Token(TokenFault::NoToken(place)),
            Kind::TooLarge => ParseFault::Token(TokenFault::TooLarge(place)),
            Kind::TooLong => ParseFault::Token(TokenFault::TooLong(place)),
            Kind::OverLimit => ParseFault::OverLimit(place),
            _ => ParseFault::Forbidden(place),
        }
    }

    // Passes the token at hand, and tells its place.
    pub fn pass(&mut self) -> usize
        requires { is_stop (At self.old) ≡ false }
        ensures took { Took (At self.old) [] self.old self.new }
        ensures place { result ≡ Here self.old }
    {
        let place = self.place();
        self.at += 1;
        place
    }

    // Passes the token k, if it is next.
    pub fn accept(&mut self, k: Kind) -> bool
        requires { is_stop k ≡ false }
        ensures { MatchBool result (Took k [] self.old self.new) ((self.new ≡ self.old) × (At self.old ≢ k)) }
    {
        if self.peek() == k {
            self.pass();
            true
        } else {
            false
        }
    }

    pub fn expect(&mut self, k: Kind) -> Result<(), ParseFault>
        requires { is_stop k ≡ false }
        ensures { MatchResult result (λ _. Took k [] self.old self.new) (λ f. Stops (one k) self.old self.new (of_parse f)) }
    {
        if self.accept(k) {
            Ok(())
        } else {
            Err(self.refusal())
        }
    }

    // Passes the token k, which ends a part of what stands at the place, and adds what it marks.
    pub fn mark(&mut self, k: Kind, what: What, place: usize) -> Result<(), ParseFault>
        requires { is_stop k ≡ false }
        ensures { MatchResult result (λ _. Took k (occ what place) self.old self.new) (λ f. Stops (one k) self.old self.new (of_parse f)) }
    {
        self.expect(k)?;
        self.push(what, place);
        Ok(())
    }

    pub fn name(&mut self) -> Result<Name, ParseFault>
        ensures { MatchResult result (λ n. Took (Kind.Name n) [] self.old self.new) (λ f. Stops a_name self.old self.new (of_parse f)) }
    {
        match self.peek() {
            Kind::Name(n) => {
                self.pass();
                Ok(n)
            }
            _ => Err(self.refusal()),
        }
    }

    pub fn operation(&mut self) -> Result<Operation, ParseFault>
        ensures { MatchResult result (λ o. Took (joint o) [] self.old self.new) (λ f. Stops a_joint self.old self.new (of_parse f)) }
    {
        match operation(self.peek()) {
            Some(o) => {
                self.pass();
                Ok(o)
            }
            None => Err(self.refusal()),
        }
    }

    pub fn push(&mut self, what: What, place: usize)
        requires { Spare self.old }
        ensures { Moved 0 (occ what place) self.old self.new }
    {
        self.table.push_reserved(Occurrence { what, place });
    }

    // Passes the token at hand, and adds what it says.
    pub fn leaf(&mut self, what: What)
        requires { is_stop (At self.old) ≡ false }
        ensures { Took (At self.old) (occ what (Here self.old)) self.old self.new }
    {
        let place = self.pass();
        self.push(what, place);
    }

    // Brings the first n occurrences from the given one on to the end.
    pub fn turn(&mut self, start: usize, n: usize)
        requires { start + n ≤ vec_len self.old.table.now }
        ensures { Turned start n self.old self.new }
    {
        self.table.as_mut_slice()[start..].rotate_left(n);
    }
}
