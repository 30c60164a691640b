// Cuts a text into its tokens.
ghost use Rattle.std.specs.Prelude.{◌≡◌, ℕ, ◌<◌, ◌≤◌, List, [], length, vec_capacity};
ghost use Rattle.tokens.specs.Kinds.{place_at, stopped, unstopped};
ghost use Rattle.tokens.specs.Cutting.{Next, Cuts};

use super::byte::{Class, run_end};
use super::kind::{Kind, Token};
use super::lexeme::lexeme;

// The most tokens that a text may have.
const MAX_TOKENS: usize = 1024;

// What may stand after the last token. It takes no bytes.
fn stop(kind: Kind, at: usize) -> Token
    ensures { result ≡ record { kind = kind; at = at; end = at } }
{
    Token { kind, at, end: at }
}

// What stands at a place after so many tokens: the next one, or a stop.
fn next(text: &[u8], i: usize, tokens: usize) -> Token
    requires { i ≤ length text.now }
    ensures { Next text.now tokens i result }
{
    if i == text.len() {
        return stop(Kind::End, i);
    }
    match lexeme(text, i) {
        Ok(_) if tokens >= MAX_TOKENS => stop(Kind::OverLimit, i),
        Ok(token) => token,
        Err(fault) => stop(Kind::from(fault), i),
    }
}

// The tokens of the text, at most 1,024 of them, and as the last what stands after them.
pub fn cut(text: &[u8], out: &mut Vec<Token>)
    requires empty { out.old.items ≡ [] }
    requires room { 1025 ≤ vec_capacity out.old }
    ensures cuts { Cuts text.now out.new.items }
    ensures only { (ts : List Token) → Cuts text.now ts → ts ≡ out.new.items }
    ensures some { 0 < length out.new.items }
    ensures few { length out.new.items ≤ 1025 }
    ensures stopped { stopped out.new.items }
    ensures unstopped { unstopped out.new.items }
    ensures places { (k : ℕ) → place_at out.new.items k ≤ length text.now }
    ensures capacity { vec_capacity out.new ≡ vec_capacity out.old }
{
    let mut from = 0;
    loop {
        let at = run_end(text, from, Class::Blank);
        let token = next(text, at, out.len());
        out.push_reserved(token);
        if token.kind.is_stop() {
            return;
        }
        from = token.end;
    }
}
