// How a direct run ends: a `Result` of these two.
use monoid::int::Int;
use refusal::Refusal;

// The word of the value, and the work.
#[derive(Clone, Copy)]
pub struct Ran {
    pub word: Int,
    pub work: usize,
}

// It is refused, or no steps are left.
#[derive(Clone, Copy)]
pub enum Halt {
    Refused(Refusal),
    Spent,
}
