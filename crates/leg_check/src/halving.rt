// The check by halving: a piece whose bound is above 0 is cleared, and of any other the halves are examined, down to the finest pieces.
ghost use Rattle.std.specs.Prelude.{◌≡◌, ℕ, ◌^◌, ◌<◌, true, pos, MatchResult, int_lt};
ghost use Rattle.refusal.specs.Numbers.{number_of};
ghost use Rattle.leg.specs.Ranges.{IsPiece};
ghost use Rattle.leg.specs.Making.{leg_refusal};
ghost use Rattle.leg_check.specs.Halving.{clears, bounds_of, counted, examine_of, check_of};
ghost use Rattle.leg_check.specs.Promise.{Promise, row_of};
ghost use Rattle.leg_check.specs.Relation.{Relation, passing, only};
ghost use Rattle.leg_check.specs.Judging.{Judged};

use crate::verdict::{Verdict, Walk};
use field::Field;
use leg::{HalfStep, Halves, Leg, Piece, Point};
use refusal::Refusal;

fn above_zero(x: i64) -> bool
    ensures { result ≡ int_lt (pos 0) x }
{
    x > 0
}

// Whether the bound on a piece clears it.
fn cleared<F: Field>(field: &F, leg: &Leg, piece: Piece) -> bool
    requires { F.lawful field.now }
    ensures { result ≡ clears (F.meaning field.now) leg.now piece.middle piece.half }
{
    let bound = field.bound(leg, piece);
    above_zero(bound.low())
}

impl Walk {
    // The walk over the second half of a piece, with the bounds of the first half and the one of the piece added.
    fn after(self, before: u16) -> Walk
        requires { (before < 4096) × (bounds_of self < 4096) }
        ensures { result ≡ counted before self }
    {
        match self {
            Walk::Stopped { middle, bounds } => Walk::Stopped {
                middle,
                bounds: before + bounds + 1,
            },
            Walk::Cleared { bounds: second } => Walk::Cleared {
                bounds: before + second + 1,
            },
        }
    }
}

// A piece that its bound clears is done. Of any other the first half is examined, and then the second unless the first stopped the walk; a finest one stops it.
fn examine<F: Field>(field: &F, leg: &Leg, piece: Piece) -> Walk
    requires { F.lawful field.now }
    ensures exact { (n : ℕ) → piece.half ≡ 2 ^ n → result ≡ examine_of (F.meaning field.now) leg.now n piece.middle }
    ensures few { bounds_of result < 4096 }
{
    if cleared(field, leg, piece) {
        return Walk::Cleared { bounds: 1 };
    }
    let Some(halves) = piece.halves() else {
        return Walk::Stopped {
            middle: piece.middle,
            bounds: 1,
        };
    };
    let Halves { first, second } = halves;
    match examine(field, leg, first) {
        Walk::Stopped { middle, bounds } => Walk::Stopped {
            middle,
            bounds: bounds + 1,
        },
        Walk::Cleared { bounds } => examine(field, leg, second).after(bounds),
    }
}

// Inside if the start is, and else as the walk over the whole leg ends.
fn judge<F: Field>(field: &F, leg: &Leg) -> Verdict
    requires { F.lawful field.now }
    ensures exact { result ≡ check_of (F.meaning field.now) leg.now }
    ensures relation { Relation ((F.meaning field.now).value leg.now) (clears (F.meaning field.now) leg.now) (row_of result) }
    ensures promise { Promise ((F.meaning field.now).value leg.now) ((F.meaning field.now).steepness leg.now) (row_of result) }
{
    if !above_zero(field.value(leg, HalfStep { at: 0 })) {
        return Verdict::Inside;
    }
    match examine(field, leg, Piece::whole()) {
        Walk::Cleared { bounds } => Verdict::Clear { bounds },
        Walk::Stopped { middle, bounds } => {
            let piece = (middle - 1) / 2;
            if above_zero(field.value(leg, HalfStep { at: middle + 1 })) {
                Verdict::Near { piece, bounds }
            } else {
                Verdict::Entered { piece, bounds }
            }
        }
    }
}

// The check of the leg from one point to another.
pub fn check<F: Field>(field: &F, start: Point, end: Point) -> Result<Verdict, Refusal>
    requires { F.lawful field.now }
    ensures { MatchResult result (λ v. Judged (F.meaning field.now) start end v) (λ e. number_of e ≡ leg_refusal start end) }
{
    let leg = Leg::new(start, end)?;
    Ok(judge(field, &leg))
}

// The most bounds that a check can take: one for each piece of a leg, of which a count leaves out none and takes none twice.
pub fn most_bounds() -> u16
    ensures all { result ≡ passing (λ _ _. true) 11 2048 }
    ensures once { (x s : ℕ) → IsPiece x s → passing (only x s) 11 2048 ≡ 1 }
{
    4095
}
