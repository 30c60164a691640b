// Which variables were used since a fork, by a flag for each.
ghost use Rattle.std.specs.Prelude.{◌≡◌, ◌≤◌, false, replicate, vec_capacity};
ghost use Rattle.judging.specs.Judging.{used_at};
ghost use Rattle.typing.specs.Codes.{replay as replayed};

use super::parts::Use;

// Flags for n variables, none of them used.
pub fn fill(flags: &mut Vec<bool>, n: usize)
    requires { n ≤ vec_capacity flags.old }
    ensures items { flags.new.items ≡ replicate n false }
    ensures capacity { vec_capacity flags.new ≡ vec_capacity flags.old }
{
    flags.clear();
    for _ in 0..n {
        flags.push_reserved(false);
    }
}

// One use.
fn note_use(flags: &mut Vec<bool>, used: Use)
    ensures items { flags.new.items ≡ used_at used.depth used.index flags.old.items }
    ensures capacity { vec_capacity flags.new ≡ vec_capacity flags.old }
{
    let inside = used.depth.saturating_sub(flags.len());
    if let Some(at) = used.index.checked_sub(inside) {
        if let Some(flag) = flags.get_mut(at) {
            *flag = true;
        }
    }
}

// All uses, in turn.
pub fn replay(flags: &mut Vec<bool>, uses: &[Use])
    ensures items { flags.new.items ≡ replayed uses.now flags.old.items }
    ensures capacity { vec_capacity flags.new ≡ vec_capacity flags.old }
{
    for u in uses {
        note_use(flags, *u);
    }
}
