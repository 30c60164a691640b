// What a call of `totals` answers.

// How many rows and ints there were, how many operations of the monoid were made, and how long the text of the totals is.
#[derive(Clone, Copy)]
pub struct Report {
    pub players: usize,
    pub games: usize,
    pub operations: u64,
    pub length: usize,
}

#[derive(Clone, Copy)]
pub enum TotalsFault {
    // The text is no list of rows: the length of its longest beginning that also begins one.
    NoValue(usize),
    // The output is too short: the length of the text.
    TooShort(usize),
    Memory,
}
