// Worked runs, from the texts of programs and inputs to what they come to.
#![tactic(auto)]

ghost use Rattle.worked.specs.Worked.{WorkedLaw};

// Each row of the table stands: program, input, budget, value and work or refusal.
pub fn worked_runs_stand()
    ensures { WorkedLaw }
{}
