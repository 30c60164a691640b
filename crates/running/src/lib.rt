// The machine of the direct run, defined in specs/; each function here carries a theorem on it.
#![tactic(auto)]

ghost use Rattle.running.specs.Example.{ExampleLaw};
ghost use Rattle.running.specs.Laws.{RunningLaw, PaidLaw};

pub mod outcome;

// The machine ends as the rules say of the expression that its table has:
// with the word of the value and the work, or refused with the same number at the same place.
pub fn runs_agree()
    ensures { RunningLaw }
{}

// Whatever the words are, a step appends at most two cells for each unit that it charges, and charges stay within the budget.
pub fn cells_are_paid()
    ensures { PaidLaw }
{}

// A worked run, computed.
pub fn example_stands()
    ensures { ExampleLaw }
{}
