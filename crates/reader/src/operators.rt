// The operations that tokens stand for.
ghost use Rattle.std.specs.Prelude.{MatchOption, ◌≡◌, ◌≢◌};
ghost use Rattle.grammar.specs.Tree.{folding};
ghost use Rattle.grammar.specs.Grammar.{sign, word, joint, Compares, Joins};
ghost use Rattle.reader.specs.Ranks.{chain_of, fold_of};

use grammar::occurrence::{Infix, Operation, Unary, What};
use tokens::kind::Kind;

// The signs of a sum and of a product, which group to the left.
#[derive(Clone, Copy)]
pub enum Rank {
    Sums,
    Products,
}

impl Rank {
    // The sign of this rank that a token is.
    pub fn sign(self, k: Kind) -> Option<Infix>
        ensures { MatchOption result ((o : Infix) → Joins (chain_of self) o → k ≢ sign o) (λ o. Joins (chain_of self) o × (k ≡ sign o)) }
    {
        match (self, k) {
            (Rank::Sums, Kind::Plus) => Some(Infix::Add),
            (Rank::Sums, Kind::Minus) => Some(Infix::Subtract),
            (Rank::Products, Kind::Times) => Some(Infix::Multiply),
            (Rank::Products, Kind::Divide) => Some(Infix::Divide),
            (Rank::Products, Kind::Remainder) => Some(Infix::Remainder),
            _ => None,
        }
    }
}

pub fn comparison(k: Kind) -> Option<Infix>
    ensures { MatchOption result ((o : Infix) → Compares o → k ≢ sign o) (λ o. Compares o × (k ≡ sign o)) }
{
    match k {
        Kind::Same => Some(Infix::Same),
        Kind::Less => Some(Infix::Less),
        _ => None,
    }
}

pub fn unary(k: Kind) -> Option<Unary>
    ensures { MatchOption result ((o : Unary) → k ≢ word o) (λ o. k ≡ word o) }
{
    match k {
        Kind::Fst => Some(Unary::Fst),
        Kind::Snd => Some(Unary::Snd),
        Kind::Len => Some(Unary::Len),
        Kind::Range => Some(Unary::Range),
        Kind::Flat => Some(Unary::Flat),
        _ => None,
    }
}

pub fn operation(k: Kind) -> Option<Operation>
    ensures { MatchOption result ((o : Operation) → k ≢ joint o) (λ o. k ≡ joint o) }
{
    match k {
        Kind::Sum => Some(Operation::Sum),
        Kind::Max => Some(Operation::Max),
        Kind::Or => Some(Operation::Or),
        Kind::Lin => Some(Operation::Lin),
        Kind::House => Some(Operation::House),
        _ => None,
    }
}

// What an operation of joining is used for.
#[derive(Clone, Copy)]
pub enum Fold {
    Scan,
    Reduce,
}

impl Fold {
    pub fn what(self, o: Operation) -> What
        ensures { result ≡ folding (fold_of self) o }
    {
        match self {
            Fold::Scan => What::Scan(o),
            Fold::Reduce => What::Reduce(o),
        }
    }
}
