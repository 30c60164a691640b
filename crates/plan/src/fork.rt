// A fork that is open while a table is filled.
ghost use Rattle.std.specs.Prelude.{◌≡◌};
ghost use Rattle.plan.specs.Filling.{or_else};

#[derive(Clone, Copy, Default)]
pub struct Fork {
    // the first entry behind it
    pub first: usize,
    // the first entry of the second branch, or behind a filter
    pub second: Option<usize>,
    // how many uses of variables came before it
    pub start: usize,
}

impl Fork {
    // The first entry of the second part, if there is one.
    pub fn behind(self) -> usize
        ensures { result ≡ or_else self.second self.first }
    {
        self.second.unwrap_or(self.first)
    }
}
