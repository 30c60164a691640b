// The table that the reader fills, with the tokens that it works on.
mod reading;

ghost use Rattle.std.specs.Prelude.{◌≤◌, vec_capacity};

use grammar::occurrence::Occurrence;
use tokens::kind::Token;

// Room for as many tokens as a text may have and a stop, and for an occurrence for each.
#[derive(Drop)]
pub struct Table {
    tokens: Vec<Token>,
    occurrences: Vec<Occurrence>,
    ghost for_tokens: { 1025 ≤ vec_capacity tokens },
    ghost for_occurrences: { 1025 ≤ vec_capacity occurrences },
}
