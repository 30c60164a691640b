// How refusals are shown: number, place, meaning, and the line of the text with a caret under the place.
use reader::fault::{ParseFault, ReadFault};
use std::alloc::{AllocError, Global};
use totals::report::TotalsFault;

// How many bytes of a long line are shown before and after the place.
const BEFORE: usize = 60;

const AFTER: usize = 16;

pub fn why_not_read(fault: ReadFault) -> &'static str {
    match fault {
        ReadFault::TooLong => "the program is longer than 4096 bytes",
        ReadFault::Parse(ParseFault::Token(_)) =>
            "no token begins here, or a number is too large, or a name too long",
        ReadFault::Parse(ParseFault::Forbidden(_)) => "the grammar does not allow this here",
        ReadFault::Parse(ParseFault::OverLimit(_)) => "the program has more than 1024 tokens",
    }
}

pub fn why_not_totalled(fault: TotalsFault) -> &'static str {
    match fault {
        TotalsFault::NoValue(_) => "the text is no value of the type that is wanted here",
        TotalsFault::TooShort(_) => "the output is too short for the text",
        TotalsFault::Memory => "out of memory",
    }
}

// The text before the place, and from the place on. A place past the end is shown behind the last byte that is no blank.
fn split_at_place(text: &[u8], place: usize) -> (&[u8], &[u8]) {
    if place < text.len() {
        return text.split_at(place);
    }
    let blanks = text
        .iter()
        .rev()
        .take_while(|b| matches!(b, b' ' | b'\n'))
        .count();
    text.split_at(text.len() - blanks)
}

// The end of the line that a text ends with, which is shown before the place.
fn end_of_line(text: &[u8]) -> &[u8] {
    let near = &text[text.len().saturating_sub(BEFORE)..];
    near.rsplit(|b| *b == b'\n').next().unwrap_or(near)
}

// A byte that cannot be printed is shown as a question mark.
fn printable(b: u8) -> char {
    match b {
        b' '..=b'~' => char::from(b),
        _ => '?',
    }
}

// The shown part of the line, and the caret's line.
pub fn caret(heap: Global, text: &[u8], place: usize) -> Result<String, AllocError> {
    let (before, rest) = split_at_place(text, place);
    let start = end_of_line(before);
    let line: String = start
        .iter()
        .chain(rest)
        .take(BEFORE + AFTER)
        .take_while(|b| **b != b'\n')
        .map(|b| printable(*b))
        .collect(heap)?;
    let indent = start.len();
    format!(in heap; "{line}\n{:indent$}^", "")
}
