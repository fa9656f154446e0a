// The check of a leg against a live sheet, alone or joined with any further field.
ghost use Rattle.std.specs.Prelude.{◌≡◌};
ghost use Rattle.field.specs.Layers.{union_of};
ghost use Rattle.areas.specs.Fields.{field_over};
ghost use Rattle.sheet.specs.Answers.{field_of, found};
ghost use Rattle.sheet.specs.Kept.{alone, first, second, limited_answer};
ghost use Rattle.sheet.specs.Live.{Live};
ghost use Rattle.sheet.specs.Held.{data_of};

use crate::sheet::Sheet;
use areas::View;
use field::{Field, Union};
use leg::Point;
use leg_check::{Verdict, check};
use refusal::Refusal;

// The check against the union of two fields, which is refused by 23 if it reaches too far.
fn check_union<A: Field + Drop, B: Field + Drop>(
    first: A,
    second: B,
    start: Point,
    end: Point,
) -> Result<Verdict, Refusal>
    requires first { A.Field.lawful first }
    requires second { B.Field.lawful second }
    ensures { found result ≡ limited_answer (union_of (A.Field.meaning first) (B.Field.meaning second)) start end }
{
    Union::fits(&first, &second)?;
    check(&Union::new(first, second), start, end)
}

impl Sheet {
    // The sheet lent as a field: while it is in use the sheet cannot change.
    pub fn view(&self) -> View<'_>
        ensures { field_over result.nodes.all.now result.areas.now.slots ≡ field_of (data_of self.now) }
    {
        View::new(&self.nodes, &self.areas)
    }

    // The check of the leg from one point to another.
    pub fn check(&self, start: Point, end: Point) -> Result<Verdict, Refusal>
        ensures { Live alone (data_of self.now) start end (found result) }
    {
        check(&self.view(), start, end)
    }

    // The same, with a further field as the first part of a union.
    pub fn check_with_first<F: Field>(
        &self,
        field: &F,
        start: Point,
        end: Point,
    ) -> Result<Verdict, Refusal>
        requires { F.Field.lawful field.now }
        ensures { Live (first (F.Field.meaning field.now)) (data_of self.now) start end (found result) }
    {
        check_union(field, self.view(), start, end)
    }

    // The same, with a further field as the second part of a union. The two differ in the order of the parts, which no type or constant says plainer.
    pub fn check_with_second<F: Field>(
        &self,
        field: &F,
        start: Point,
        end: Point,
    ) -> Result<Verdict, Refusal>
        requires { F.Field.lawful field.now }
        ensures { Live (second (F.Field.meaning field.now)) (data_of self.now) start end (found result) }
    {
        check_union(self.view(), field, start, end)
    }
}
