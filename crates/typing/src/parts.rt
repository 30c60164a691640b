// What the checker keeps.
use tokens::kind::Name;

// A variable in scope, with the code of its type.
#[derive(Clone, Copy)]
pub struct Binding {
    pub name: Name,
    pub code: usize,
}

// An open fork: whether it has a filter, how many variables were in scope there, and how many uses came before it.
#[derive(Clone, Copy)]
pub struct Fork {
    pub filtered: bool,
    pub depth: usize,
    pub start: usize,
}

// A use of a variable: how many were in scope, and how many of them stood inside it.
#[derive(Clone, Copy)]
pub struct Use {
    pub depth: usize,
    pub index: usize,
}

// What is noted of an occurrence: the code of its type, and of a variable which one it is.
#[derive(Clone, Copy)]
pub struct Note {
    pub code: usize,
    pub index: usize,
}
