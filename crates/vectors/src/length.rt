// Ints as lengths.
ghost use Rattle.vectors.specs.Walking.{IsLength};

use monoid::int::Int;

// The length that an int stands for; a negative one is none.
pub fn length_of(x: Int) -> Option<usize>
    ensures { IsLength x result }
{
    usize::try_from(x.value).ok()
}
