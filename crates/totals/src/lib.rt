// Totals of rows, from text to text, by one segmented scan.
#![tactic(auto)]

ghost use Rattle.std.specs.Prelude.{◌≡◌, ◌+◌, ◌%◌, ◌^◌, map, length, OnErr, IfOk, MatchResult};
ghost use Rattle.monoid.specs.Ints.{wrapped_sum};
ghost use Rattle.monoid.specs.Segments.{lists};
ghost use Rattle.totals.specs.Totals.{Totalled, Declined};

use monoid::instances::Sum;
use monoid::int::Int;
use monoid::segmented::Segments;
use scan::ScanEngine;
use scan::segments::reduce;
use std::alloc::{AllocError, Global};
use values::print::print_ints;
use values::rows::read_rows;

pub mod fault;
pub mod report;

use report::{Report, TotalsFault};

// Totals each row by one scan; answers the totals and the operations made.
fn sum_rows<E: ScanEngine>(
    engine: &mut E,
    heap: Global,
    rows: &Segments<'_, Int>,
) -> Result<(Vec<Int>, u64), AllocError>
    ensures sums { IfOk result (λ r. r.0.items ≡ map wrapped_sum (lists rows.now)) }
    ensures made { IfOk result (λ r. r.1 ≡ E.ScanEngine.price (length rows.now.elements.now) % 2 ^ 64) }
    ensures rises { IfOk result (λ _. E.ScanEngine.kept engine.new ≡ (E.ScanEngine.kept engine.old + E.ScanEngine.price (length rows.now.elements.now)) % 2 ^ 64) }
    ensures idle { OnErr result (engine.new ≡ engine.old) }
{
    let mut places = vec![in heap; (false, Int::zero()); rows.elements.len()]?;
    let mut sums = vec![in heap; Int::zero(); rows.lengths.len()]?;
    let made = reduce::<E, Sum>(engine, rows, &mut places, &mut sums);
    Ok((sums, made))
}

// Reads a list of rows, totals each, and prints the totals in the same order.
pub fn totals<E: ScanEngine>(
    engine: &mut E,
    heap: Global,
    text: &[u8],
    output: &mut [u8],
) -> Result<Report, TotalsFault>
    ensures { MatchResult result (λ report. Totalled E.ScanEngine.price (E.ScanEngine.kept engine.old) (E.ScanEngine.kept engine.new) text.now output.old output.new report) (λ f. Declined E.ScanEngine.price E.ScanEngine.kept engine.old engine.new text.now output.old output.new f) }
{
    let rows = read_rows(heap, text)?;
    let (sums, operations) = sum_rows(engine, heap, &rows.segments())?;
    let length = print_ints(&sums, output)?;
    Ok(Report {
        players: rows.lengths.len(),
        games: rows.ints.len(),
        operations,
        length,
    })
}
