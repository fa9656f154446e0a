// What the nodes give by their numbers, and how one more is joined.
ghost use Rattle.std.specs.Prelude.{◌<◌, get_or, pos, ◌+ℤ◌, slice_index_or};
ghost use Rattle.std.specs.Int.{int_min, int_max};
ghost use Rattle.affine.specs.Forms.{lesser_of};
ghost use Rattle.affine.specs.Fits.{Fits, LesserFits};
ghost use Rattle.nodes.specs.Meanings.{zero_form};

use crate::joining::Joining;
use affine::Form;

// The values at a half-step, each as the first number of a form: the lesser is joined. Here and below, a rule: a check asks for no memory, so these are arrays.
#[derive(Drop)]
pub(crate) struct Values {
    pub(crate) all: [Form; 64],
}

impl Joining for Values {
    type Answer = i64;

    ghost given = { λ v i. (get_or v.all i zero_form).u0 };

    ghost join = { λ _ a b. int_min a b };

    ghost can = { λ _ _ node. node < 64 };

    fn with(&self, so_far: i64, node: usize) -> i64 {
        so_far.min(self.all[node].u0)
    }
}

// The steepnesses or the reaches: the larger and a margin.
#[derive(Drop)]
pub(crate) struct Extents {
    pub(crate) all: [i64; 64],
    pub(crate) margin: i64,
}

impl Joining for Extents {
    type Answer = i64;

    ghost given = { λ e i. slice_index_or e.all i (pos 0) };

    ghost join = { λ e a b. int_max a b +ℤ e.margin };

    ghost can = { λ e a node. (node < 64) × Fits (int_max a (slice_index_or e.all node (pos 0)) +ℤ e.margin) };

    fn with(&self, so_far: i64, node: usize) -> i64 {
        so_far.max(self.all[node]) + self.margin
    }
}

// The forms on a piece: the form of the lesser value. It holds what `Values` holds and joins it in another way, so one type for both would have to say which.
#[derive(Drop)]
pub(crate) struct Forms {
    pub(crate) all: [Form; 64],
}

impl Joining for Forms {
    type Answer = Form;

    ghost given = { λ f i. slice_index_or f.all i zero_form };

    ghost join = { λ _ u v. lesser_of u v };

    ghost can = { λ f u node. (node < 64) × LesserFits u (slice_index_or f.all node zero_form) };

    fn with(&self, so_far: Form, node: usize) -> Form {
        so_far.lesser(self.all[node])
    }
}
