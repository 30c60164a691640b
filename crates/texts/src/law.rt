// What holds of all values, texts and cells.
ghost use Rattle.texts.specs.Laws.{CellsCount, OneValue, ReadPrinted, PrintRead};

// A value has as many cells as its size.
pub fn sizes_count_cells()
    ensures { CellsCount }
{}

// A text has one value.
pub fn texts_are_unique()
    ensures { OneValue }
{}

// Reading what was printed gives the value back.
pub fn printed_is_read()
    ensures { ReadPrinted }
{}

// Printing what was read gives the same bytes.
pub fn read_is_printed()
    ensures { PrintRead }
{}
