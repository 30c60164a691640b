// Scans and reductions of segments side by side, all by one scan of the segmented lift.
// `places` is lent for the lifted elements.
ghost use Rattle.std.specs.Prelude.{◌≡◌, ℕ, ◌+◌, ◌%◌, ◌^◌, ◌<◌, false, length, if◌then◌else◌, nat_eq, slice_index_or};
ghost use Rattle.scan.specs.Places.{ScannedPlaces, product_of_places};
ghost use Rattle.monoid.specs.Segments.{places as segment_places, lists, marked, reduced, scanned};

use crate::ScanEngine;
use monoid::Monoid;
use monoid::segmented::{Segmented, Segments};

// Writes the places of a segment: its elements, with the flag up at the head.
fn mark_segment<M: Monoid>(segment: &[M::Element], places: &mut [(bool, M::Element)])
    requires { length places.old ≡ length segment.now }
    ensures { places.new ≡ marked segment.now }
{
    for (i, x) in segment.iter().enumerate() {
        places[i] = (i == 0, *x);
    }
}

// Writes the places of all segments. An empty one has none.
fn mark<M: Monoid>(segments: &Segments<'_, M::Element>, places: &mut [(bool, M::Element)])
    requires { length places.old ≡ length segments.now.elements.now }
    ensures { places.new ≡ segment_places (lists segments.now) }
{
    let mut at = 0;
    for n in segments.lengths {
        let end = at + *n;
        mark_segment::<M>(&segments.elements[at..end], &mut places[at..end]);
        at = end;
    }
}

// The product of a segment of n elements, read off the scan where the next segment begins, or off the product of all.
// An empty segment has the identity.
fn product_of<M: Monoid>(
    places: &[(bool, M::Element)],
    all: (bool, M::Element),
    end: usize,
    n: usize,
) -> M::Element
    ensures { result ≡ (if nat_eq n 0 then M.Monoid.unit else (slice_index_or places.now end all).1) }
{
    if n == 0 {
        M::identity()
    } else {
        places.get(end).copied().unwrap_or(all).1
    }
}

// Reads the product of each segment off a scan of the lift whose product of all is `all`.
fn ends<M: Monoid>(
    segments: &Segments<'_, M::Element>,
    places: &[(bool, M::Element)],
    all: (bool, M::Element),
    out: &mut [M::Element],
)
    requires room { length out.old ≡ length segments.now.lengths.now }
    requires places { ScannedPlaces M.Monoid.unit M.Monoid.op (lists segments.now) places.now }
    requires all { all ≡ product_of_places M.Monoid.unit M.Monoid.op (lists segments.now) }
    ensures { out.new ≡ reduced M.Monoid.unit M.Monoid.op (lists segments.now) }
{
    let mut end = 0;
    for (j, n) in segments.lengths.iter().enumerate() {
        end += *n;
        out[j] = product_of::<M>(places, all, end, *n);
    }
}

// The product of each segment; answers the operations made.
pub fn reduce<E: ScanEngine, M: Monoid>(
    engine: &mut E,
    segments: &Segments<'_, M::Element>,
    places: &mut [(bool, M::Element)],
    out: &mut [M::Element],
) -> u64
    requires { (length places.old ≡ length segments.now.elements.now) × (length out.old ≡ length segments.now.lengths.now) }
    ensures total { out.new ≡ reduced M.Monoid.unit M.Monoid.op (lists segments.now) }
    ensures made { result ≡ E.ScanEngine.price (length segments.now.elements.now) % 2 ^ 64 }
    ensures rises { E.ScanEngine.kept engine.new ≡ (E.ScanEngine.kept engine.old + E.ScanEngine.price (length segments.now.elements.now)) % 2 ^ 64 }
{
    mark::<M>(segments, places);
    let (all, made) = engine.scan::<Segmented<M>>(places);
    ends::<M>(segments, places, all, out);
    made
}

// Reads the scan of a segment off its places. At the head they still have what came before, so the identity is written there.
fn inside<M: Monoid>(places: &[(bool, M::Element)], out: &mut [M::Element])
    requires { length out.old ≡ length places.now }
    ensures { (k : ℕ) → k < length places.now → slice_index_or out.new k M.Monoid.unit ≡ (if nat_eq k 0 then M.Monoid.unit else (slice_index_or places.now k (false, M.Monoid.unit)).1) }
{
    for (i, (_, x)) in places.iter().enumerate() {
        out[i] = if i == 0 { M::identity() } else { *x };
    }
}

// Reads the scan of each segment off a scan of the lift.
fn insides<M: Monoid>(
    segments: &Segments<'_, M::Element>,
    places: &[(bool, M::Element)],
    out: &mut [M::Element],
)
    requires room { (length places.now ≡ length segments.now.elements.now) × (length out.old ≡ length segments.now.elements.now) }
    requires places { ScannedPlaces M.Monoid.unit M.Monoid.op (lists segments.now) places.now }
    ensures { out.new ≡ scanned M.Monoid.unit M.Monoid.op (lists segments.now) }
{
    let mut at = 0;
    for n in segments.lengths {
        let end = at + *n;
        inside::<M>(&places[at..end], &mut out[at..end]);
        at = end;
    }
}

// The scan of each segment by itself; answers the operations made.
pub fn scan<E: ScanEngine, M: Monoid>(
    engine: &mut E,
    segments: &Segments<'_, M::Element>,
    places: &mut [(bool, M::Element)],
    out: &mut [M::Element],
) -> u64
    requires { (length places.old ≡ length segments.now.elements.now) × (length out.old ≡ length segments.now.elements.now) }
    ensures total { out.new ≡ scanned M.Monoid.unit M.Monoid.op (lists segments.now) }
    ensures made { result ≡ E.ScanEngine.price (length segments.now.elements.now) % 2 ^ 64 }
    ensures rises { E.ScanEngine.kept engine.new ≡ (E.ScanEngine.kept engine.old + E.ScanEngine.price (length segments.now.elements.now)) % 2 ^ 64 }
{
    mark::<M>(segments, places);
    let (_, made) = engine.scan::<Segmented<M>>(places);
    insides::<M>(segments, places, out);
    made
}
