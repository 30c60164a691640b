// Cells and bytes that are kept as far as there is room.
ghost use Rattle.std.specs.Prelude.{◌≡◌, slice_set};

// Stores an element if there is room for it.
pub fn store<T: Copy>(xs: &mut [T], i: usize, x: T)
    ensures { xs.new ≡ slice_set xs.old i x }
{
    if i < xs.len() {
        xs[i] = x;
    }
}
