// The variables that were used.
ghost use Rattle.std.specs.Prelude.{◌≡◌, ◌≤◌, ◌++◌, reverse, length, vec_capacity};
ghost use Rattle.plan.specs.Filling.{gathered};

use super::table::Free;

// Adds those that have their flag set, the innermost first. The scope has the innermost last.
pub fn gather(frees: &mut Vec<Free>, flags: &[bool], scope: &[bool])
    requires { length (frees.old.items ++ gathered flags.now (reverse scope.now) 0) ≤ vec_capacity frees.old }
    ensures items { frees.new.items ≡ frees.old.items ++ gathered flags.now (reverse scope.now) 0 }
    ensures capacity { vec_capacity frees.new ≡ vec_capacity frees.old }
{
    for (index, (used, boxed)) in flags.iter().zip(scope.iter().rev()).enumerate() {
        if *used {
            frees.push_reserved(Free {
                index,
                boxed: *boxed,
            });
        }
    }
}
