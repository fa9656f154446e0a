// One text that goes through the areas, whatever it is that the nodes of those which are on give.
ghost use Rattle.std.specs.Prelude.{◌≡◌, ℕ};
ghost use Rattle.areas.specs.Fields.{joined, united};
ghost use Rattle.areas.specs.Uniting.{CanJoin, AllCanJoin};

use crate::area::Area;

// What each node gives, and how it is joined to what there is.
pub(crate) trait Joining {
    type Answer;

    ghost given: { Self → ℕ → Self.Answer };

    ghost join: { Self → Self.Answer → Self.Answer → Self.Answer };

    // when the node of this number can be joined to what there is
    ghost can: { Self → Self.Answer → ℕ → Type 0 };

    // Joins what a node gives to what there is.
    fn with(&self, so_far: Self::Answer, node: usize) -> Self::Answer
        requires { can self.now so_far node }
        ensures { result ≡ join self.now so_far (given self.now node) };
}

// One slot more.
fn with_slot<J: Joining>(joining: &J, so_far: J::Answer, slot: &Option<Area>) -> J::Answer
    requires { CanJoin (J.can joining.now) so_far slot.now }
    ensures { result ≡ joined (J.join joining.now) (J.given joining.now) so_far slot.now }
{
    match slot {
        Some(area) if area.on => joining.with(so_far, area.node),
        _ => so_far,
    }
}

// All slots, in their order. A rule here: a loop over the table with its numbers folds the areas.
pub(crate) fn unite<J: Joining>(joining: &J, start: J::Answer, slots: &[Option<Area>]) -> J::Answer
    requires { AllCanJoin (J.can joining.now) (J.join joining.now) (J.given joining.now) start slots.now }
    ensures { result ≡ united (J.join joining.now) (J.given joining.now) start slots.now }
{
    let mut so_far = start;
    for (_number, slot) in slots.iter().enumerate() {
        so_far = with_slot(joining, so_far, slot);
    }
    so_far
}
