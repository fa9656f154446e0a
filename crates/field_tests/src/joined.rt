// Layers of lent fields of any type, and of layers, with what the check says of them.
ghost use Rattle.std.specs.Prelude.{◌≡◌, ◌⊎◌, MatchResult};
ghost use Rattle.refusal.specs.Numbers.{number_of};
ghost use Rattle.leg.specs.Making.{leg_refusal};
ghost use Rattle.field.specs.Layers.{union_of, outside_of, InLimit};
ghost use Rattle.leg_check.specs.Judging.{Judged};

use field::{Field, Outside, Union};
use leg::Point;
use leg_check::{Verdict, check};
use refusal::Refusal;

// The check against the union of a field and of the outside of another.
pub fn check_joined<A: Field, B: Field>(
    first: &A,
    second: &B,
    start: Point,
    end: Point,
) -> Result<Verdict, Refusal>
    requires { (A.Field.lawful first.now) × (B.Field.lawful second.now) }
    ensures { MatchResult result (λ v. Judged (union_of (A.Field.meaning first.now) (outside_of (B.Field.meaning second.now))) start end v) (λ e. ((number_of e ≡ 23) × (InLimit (union_of (A.Field.meaning first.now) (outside_of (B.Field.meaning second.now))) → ⊥)) ⊎ (number_of e ≡ leg_refusal start end)) }
{
    let outside = Outside::new(second);
    Union::fits(first, &outside)?;
    check(&Union::new(first, outside), start, end)
}
