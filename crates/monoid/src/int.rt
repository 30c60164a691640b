// The language's int. That it fits its width stands in the type, so the laws of arithmetic hold of every value with no premise.
// This file and the definition of its width in specs/Ints.antt are the only places that fix 32 bits.
ghost use Rattle.std.specs.Prelude.{◌≡◌, ◌^◌, ◌<◌};
ghost use Rattle.std.specs.Int.Signed.{mag};

#[derive(Clone, Copy, PartialEq, Eq, PartialOrd, Ord)]
pub struct Int {
    pub value: i32,
    ghost ok: { mag value < 2 ^ 31 },
}

impl Int {
    pub const LOWEST: i32 = i32::MIN;

    // The magnitude of the lowest int; that of the highest is 1 less.
    pub const MAGNITUDE: u64 = 2147483648;

    pub fn new(value: i32) -> Int
        ensures { result.value ≡ value }
    {
        Int { value }
    }
}
