// Reads a text into a table.
ghost use Rattle.std.specs.Prelude.{◌≡◌, ◌≤◌, List, [], length, IfOk, MatchResult, OnOk};
ghost use Rattle.reader.specs.Reading.{occurrences_of, Accepts, Rejects};

use super::super::fault::ReadFault;
use super::super::program::parse;
use super::Table;
use grammar::occurrence::Occurrence;
use std::alloc::{AllocError, Global};
use tokens::cutter::cut;

// The most bytes that a text may have.
const MAX_BYTES: usize = 4096;

// The most tokens that a text may have, and the stop.
const MAX_LIST: usize = 1025;

impl Table {
    pub fn new(heap: Global) -> Result<Table, AllocError>
        ensures { IfOk result (λ t. occurrences_of t ≡ []) }
    {
        let tokens = Vec::with_capacity(heap, MAX_LIST)?;
        let occurrences = Vec::with_capacity(heap, MAX_LIST)?;
        Ok(Table {
            tokens,
            occurrences,
        })
    }

    // What the last text that was read does, in the order of evaluation.
    pub fn occurrences(&self) -> &[Occurrence]
        ensures { result.now ≡ occurrences_of self.now }
    {
        self.occurrences.as_slice()
    }

    // The occurrences of the program that the text is, or why it is none. After a refusal the table may hold anything.
    pub fn read(&mut self, text: &[u8]) -> Result<(), ReadFault>
        ensures answers { MatchResult result (λ _. Accepts text.now (occurrences_of self.new)) (λ f. Rejects text.now f) }
        ensures exact { MatchResult result (λ _. (os : List Occurrence) → Accepts text.now os → os ≡ occurrences_of self.new) (λ _. (os : List Occurrence) → Accepts text.now os → ⊥) }
        ensures few { OnOk result (length (occurrences_of self.new) ≤ 1024) }
    {
        if text.len() > MAX_BYTES {
            return Err(ReadFault::TooLong);
        }
        self.tokens.clear();
        self.occurrences.clear();
        cut(text, &mut self.tokens);
        parse(self.tokens.as_slice(), &mut self.occurrences)?;
        Ok(())
    }
}
