// The language: its values and expressions, what may be written and of which type, and how heavy a program is.
// The definitions stand in specs/; each function here carries a theorem on them.
#![tactic(auto)]

ghost use Rattle.lang.specs.Accepting.{CheckLaw};
ghost use Rattle.lang.specs.Examples.{Examples};
ghost use Rattle.lang.specs.Laws.{TypingLaw, UniqueLaw, SmallLaw, DerivedLaw};
ghost use Rattle.lang.specs.Limits.{LimitsLaw};

// Elaboration answers an expression of a type where the type rules give that type, and only there.
pub fn typing_agrees()
    ensures { TypingLaw }
{}

// A tree has at most one type.
pub fn types_are_unique()
    ensures { UniqueLaw }
{}

// Where no type in scope has more than 8 parts, no expression's type has.
pub fn types_stay_small()
    ensures { SmallLaw }
{}

// Then each node of what elaboration answers is within the limits.
pub fn limits_are_kept()
    ensures { LimitsLaw }
{}

// A program is accepted where its header, its body's type and its weight keep the rules, and only there.
pub fn checking_is_exact()
    ensures { CheckLaw }
{}

// Small programs, with what they come to.
pub fn examples_stand()
    ensures { Examples }
{}

// The trees that the grammar derives for programs are programs.
pub fn derivations_are_programs()
    ensures { DerivedLaw }
{}
