// Words and names.
ghost use Rattle.std.specs.Prelude.{◌≡◌, ℕ, ◌<◌, ◌≤◌, true, List, length, IfSome, MatchOption};
ghost use Rattle.tokens.specs.declared.byte.Class.TheVariants.{InName};
ghost use Rattle.tokens.specs.Bytes.{AllIn};
ghost use Rattle.tokens.specs.Words.{IsWord, word_kind, padded};

use super::kind::{Kind, Name};

// The most bytes that a name may have.
const MAX_NAME: usize = 16;

// The words, each with its kind.
const WORDS: [(&[u8], Kind); 24] = [
    (b"main", Kind::Main),
    (b"int", Kind::Int),
    (b"bool", Kind::Bool),
    (b"let", Kind::Let),
    (b"in", Kind::In),
    (b"if", Kind::If),
    (b"then", Kind::Then),
    (b"else", Kind::Else),
    (b"true", Kind::True),
    (b"false", Kind::False),
    (b"empty", Kind::Empty),
    (b"fst", Kind::Fst),
    (b"snd", Kind::Snd),
    (b"len", Kind::Len),
    (b"range", Kind::Range),
    (b"flat", Kind::Flat),
    (b"part", Kind::Part),
    (b"scan", Kind::Scan),
    (b"reduce", Kind::Reduce),
    (b"sum", Kind::Sum),
    (b"max", Kind::Max),
    (b"or", Kind::Or),
    (b"lin", Kind::Lin),
    (b"house", Kind::House),
];

// The word that a text is. No word is a name.
pub fn find_word(text: &[u8]) -> Option<Kind>
    ensures word { MatchOption result ((k : Kind) → IsWord text.now k → ⊥) (λ k. IsWord text.now k) }
    ensures kind { IfSome result (λ k. word_kind k ≡ true) }
{
    WORDS
        .iter()
        .find(|(spelling, _)| text == *spelling)
        .map(|(_, kind)| *kind)
}

// The name of these bytes, unless it is too long. No other bytes have this name.
pub fn find_name(text: &[u8]) -> Option<Name>
    requires { AllIn InName text.now }
    ensures bytes { MatchOption result (16 < length text.now) (λ n. (length text.now ≤ 16) × (n.bytes ≡ padded text.now)) }
    ensures only { IfSome result (λ n. (other : List ℕ) → AllIn InName other → n.bytes ≡ padded other → other ≡ text.now) }
{
    if text.len() > MAX_NAME {
        return None;
    }
    let mut bytes = [0; MAX_NAME];
    bytes[..text.len()].copy_from_slice(text);
    Some(Name { bytes })
}
