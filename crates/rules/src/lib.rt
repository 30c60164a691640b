// The evaluation rules: values and work, the direct run and the vector run under a budget, and where they refuse.
// The definitions stand in specs/; each function here carries a theorem on them.
#![tactic(auto)]

ghost use Rattle.rules.specs.Laws.{BatchLaw, DirectLaw, SameLaw, IdleLaw, MoreLaw};
ghost use Rattle.rules.specs.Laws.{BatchTraceLaw, DirectTraceLaw, PlacesLaw, WorkLaw, CountLaw};
ghost use Rattle.rules.specs.Meaning.{DivisionLaw, ListsLaw, JoinsLaw};
ghost use Rattle.rules.specs.Numbers.{NumbersLaw};
ghost use Rattle.rules.specs.Order.{OrderLaw};
ghost use Rattle.rules.specs.Table.{TableLaw};

pub mod arithmetic;

// A vector run answers exactly when each evaluation answers and all their work is within the budget; its values are theirs.
pub fn batch_agrees()
    ensures { BatchLaw }
{}

// A direct run answers exactly when the rules do and the work is within the budget; its value and work are theirs.
pub fn direct_agrees()
    ensures { DirectLaw }
{}

// A vector run is what its budget makes of its occurrences: its first failure, or the first with which the charges pass the budget.
pub fn batch_is_judged()
    ensures { BatchTraceLaw }
{}

// So is a direct run.
pub fn direct_is_judged()
    ensures { DirectTraceLaw }
{}

// The occurrences of a vector run are those of its expression, each once and in order.
pub fn batch_keeps_order()
    ensures { OrderLaw }
{}

// At each place a vector run that answers is charged what its evaluations are charged there, one by one.
pub fn places_are_charged_alike()
    ensures { PlacesLaw }
{}

// Work is the sum of all charges.
pub fn work_is_charged()
    ensures { WorkLaw }
{}

// Work is at least the number of occurrences that are evaluated.
pub fn occurrences_cost()
    ensures { CountLaw }
{}

// More budget changes no answer and no failure, in runs of both kinds.
pub fn answers_last()
    ensures { MoreLaw }
{}

// The rules fail with 18, 19 or 20; a run is refused with one of these or with 17.
pub fn refusals_are_numbered()
    ensures { NumbersLaw }
{}

// Worked runs: programs, houses, inputs and budgets, with what they come to.
pub fn table_stands()
    ensures { TableLaw }
{}

// A vector run for one environment answers exactly what the direct run answers, with the same work.
pub fn runs_agree()
    ensures { SameLaw }
{}

// An occurrence that no evaluation reaches charges nothing and does not fail.
pub fn idle_occurrences_pass()
    ensures { IdleLaw }
{}

// Quotients are rounded towards zero, remainders have the dividend's sign; only the lowest int divided by -1 wraps, to itself.
pub fn division_is_exact()
    ensures { DivisionLaw }
{}

// `part` answers the lists of the given lengths that stand side by side in its list, exactly where there are some; a range has its ints.
pub fn lists_are_cut_exactly()
    ensures { ListsLaw }
{}

// All operations are monoids if the house's is, and a scan has at each place the join of the elements before it.
pub fn scans_join_before()
    ensures { JoinsLaw }
{}
