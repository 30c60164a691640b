// What single cells of a value hold.
ghost use Rattle.std.specs.Prelude.{ℕ, ◌≤◌};
ghost use Rattle.texts.specs.Writing.{Counts};

use monoid::int::Int;

// The length that a cell holds: none if it is negative, and no more than there are cells behind it.
pub fn count_in(cell: Int, behind: usize) -> usize
    ensures is { Counts cell behind result }
    ensures within { result ≤ behind }
{
    usize::try_from(cell.value).unwrap_or(0).min(behind)
}
