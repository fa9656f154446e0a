// The heights of a lattice, and the lattice.
ghost use Rattle.std.specs.Prelude.{◌≡◌, pos};
ghost use Rattle.lattice.specs.Terrain.{greatest_step};
ghost use Rattle.terrain.specs.Rows.{heights_of, row_refusal};

// 129 rows of 129 heights in range, those of the lowest y first and in each row that of the lowest x first.
#[derive(Drop)]
pub struct Heights {
    pub(crate) row: Vec<i16>,
    ghost fit: { row_refusal row.items ≡ 0 },
}

// Heights with the largest difference of two next to each other.
#[derive(Drop)]
pub struct Lattice {
    pub(crate) heights: Heights,
    pub(crate) largest: i64,
    ghost steps: { largest ≡ pos (greatest_step (heights_of heights.row.items)) },
}
