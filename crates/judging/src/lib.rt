// Judging programs, occurrence by occurrence.
#![tactic(auto)]

ghost use Rattle.judging.specs.Laws.{JudgingLaw, CheckingLaw, FirstLaw, ResolvingLaw, AloneLaw};

// Judging a program occurrence by occurrence refuses it where checking it does, with the same number and place, and
// otherwise ends with its notes and its weight.
pub fn judging_is_checking()
    ensures { JudgingLaw }
{}

// So it does for every tree that the grammar derives for programs.
pub fn checking_agrees()
    ensures { CheckingLaw }
{}

// A refusal is that of the first occurrence that refuses.
pub fn refusals_are_first()
    ensures { FirstLaw }
{}

// The occurrences of a program that is accepted, each with its note, are those of the expression that it stands for: what is
// done, where, and the type that stands uppermost.
pub fn occurrences_are_resolved()
    ensures { ResolvingLaw }
{}

// At the end of a program that is accepted the parameter alone is in scope.
pub fn parameter_alone()
    ensures { AloneLaw }
{}
