// The sign behind an element of a list: a comma before the next one, or the bracket behind the last.
ghost use Rattle.std.specs.Prelude.{◌≡◌, slice_index};
ghost use Rattle.values.specs.Signs.{byte_of, Signs};

#[derive(Clone, Copy, PartialEq, Eq)]
pub enum Sign {
    Comma,
    Bracket,
}

impl Sign {
    // The sign at a place of a text.
    pub fn at(text: &[u8], place: usize) -> Option<Sign>
        ensures { Signs (slice_index text.now place) result }
    {
        match text.get(place) {
            Some(b',') => Some(Sign::Comma),
            Some(b']') => Some(Sign::Bracket),
            _ => None,
        }
    }

    pub fn byte(self) -> u8
        ensures { result ≡ byte_of self }
    {
        match self {
            Sign::Comma => b',',
            Sign::Bracket => b']',
        }
    }
}
