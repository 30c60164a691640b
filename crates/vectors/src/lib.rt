// Values of any type as cells or as vectors, and the way from one to the other.
#![tactic(auto)]

pub mod gather;
mod length;
pub mod span;
pub mod spread;
mod writer;

ghost use Rattle.vectors.specs.Example.{SampleCells, SampleVectors};
ghost use Rattle.vectors.specs.Laws.{VectorLaws, CellLaws, BackLaw};

// The vectors of values: how many, how long, side by side, and that they belong to no other values.
pub fn vectors_stand()
    ensures { VectorLaws }
{}

// The cells of a value: how many, and that they belong to no other value.
pub fn cells_stand()
    ensures { CellLaws }
{}

// A value that went into vectors comes back from them.
pub fn there_and_back()
    ensures { BackLaw }
{}

// The cells and the vectors of [[x, y], [], [z]].
pub fn sample_stands()
    ensures { SampleCells × SampleVectors }
{}
