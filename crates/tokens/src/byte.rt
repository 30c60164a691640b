// Bytes by class, and runs of them.
ghost use Rattle.std.specs.Prelude.{◌≡◌, ◌≤◌, length};
ghost use Rattle.tokens.specs.Bytes.{blank, in_name, in_class, Run};

// A class of bytes: what may stand between tokens, what a name or a word is made of, digits.
#[derive(Clone, Copy)]
pub enum Class {
    Blank,
    InName,
    Digit,
}

fn is_blank(b: u8) -> bool
    ensures { result ≡ blank b }
{
    b == b' ' || b == b'\n'
}

fn is_in_name(b: u8) -> bool
    ensures { result ≡ in_name b }
{
    b.is_ascii_lowercase() || b.is_ascii_digit() || b == b'_'
}

impl Class {
    fn holds(self, b: u8) -> bool
        ensures { result ≡ in_class self b }
    {
        match self {
            Class::Blank => is_blank(b),
            Class::InName => is_in_name(b),
            Class::Digit => b.is_ascii_digit(),
        }
    }
}

// The end of the longest run of bytes of a class.
pub fn run_end(text: &[u8], from: usize, class: Class) -> usize
    requires { from ≤ length text.now }
    ensures { Run class text.now from result }
{
    text[from..]
        .iter()
        .position(|b| !class.holds(*b))
        .map_or(text.len(), |n| from + n)
}
