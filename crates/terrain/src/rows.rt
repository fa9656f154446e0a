// Rows of heights, and the bytes of a file.
ghost use Rattle.std.specs.Prelude.{◌≡◌, List, ℤ, MatchResult, IfOk};
ghost use Rattle.std.specs.List.{list_all};
ghost use Rattle.std.specs.Iterator.{IsFinite, AlwaysYields};
ghost use Rattle.refusal.specs.Numbers.{number_of};
ghost use Rattle.terrain.specs.Rows.{in_range, refusal_by, height_of, file_heights};

use refusal::Refusal;
use std::alloc::{AllocError, Global};

// How many heights stand on one row or column of the lattice, and on the whole. Clauses write numbers out, so that a wrong constant is refused.
pub(crate) const SIDE: usize = 129;

pub(crate) const HEIGHTS: usize = 16641;

// From -16 to 300.
fn in_range(height: i16) -> bool
    ensures { result ≡ in_range height }
{
    (-16..=300).contains(&height)
}

// A height by its two bytes.
pub(crate) fn height_of(pair: &[u8; 2]) -> i16
    ensures { result ≡ height_of pair.now }
{
    i16::from_be_bytes(*pair)
}

// The first refusal that fits heights, whose number is right or not.
pub(crate) fn check<I: Iterator<Item = i16> + Drop>(sized: bool, heights: I) -> Result<(), Refusal>
    requires can { I.can_next heights }
    requires finite { IsFinite (I.remaining heights) }
    ensures { (hs : List ℤ) → AlwaysYields I.next_gives (λ h. h) heights hs → MatchResult result (λ _. refusal_by sized (list_all in_range hs) ≡ 0) (λ e. number_of e ≡ refusal_by sized (list_all in_range hs)) }
{
    if !sized {
        Err(Refusal::LatticeSize)
    } else if heights.fold(true, |good, height| good & in_range(height)) {
        // not `all`, which stops at the first that is out of range, and takes several times as long where there is none
        Ok(())
    } else {
        Err(Refusal::HeightRange)
    }
}

// The row that a file holds.
pub(crate) fn file_row(heap: Global, bytes: &[u8]) -> Result<Vec<i16>, AllocError>
    ensures { IfOk result (λ row. row.items ≡ file_heights bytes.now) }
{
    let (pairs, _) = bytes.as_chunks::<2>();
    pairs.iter().map(height_of).collect(heap)
}
