// What stands at the beginning of a text.

// A value at the beginning of a text, and the length of its text.
#[derive(Clone, Copy)]
pub struct Front<T> {
    pub value: T,
    pub length: usize,
}

// The length of the longest beginning of a text that also begins the text of a value.
#[derive(Clone, Copy)]
pub struct Stopped {
    pub length: usize,
}
