// The limit of a reach.
ghost use Rattle.std.specs.Prelude.{◌≡◌, ◌≤ℤ◌, MatchResult};
ghost use Rattle.refusal.specs.Numbers.{number_of};
ghost use Rattle.field.specs.Meaning.{reach_bound};

use refusal::Refusal;

// The greatest reach that a field may have.
const REACH_LIMIT: i64 = (1 << 60) + (1 << 20);

// Refuses a reach that no field may have.
pub(crate) fn in_limit(reach: i64) -> Result<(), Refusal>
    ensures { MatchResult result (λ _. reach ≤ℤ reach_bound) (λ e. (number_of e ≡ 23) × (reach ≤ℤ reach_bound → ⊥)) }
{
    if reach <= REACH_LIMIT {
        Ok(())
    } else {
        Err(Refusal::LayerReach)
    }
}
