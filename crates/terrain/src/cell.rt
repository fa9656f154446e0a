// What the code keeps of a cell, and of a place in one.
ghost use Rattle.std.specs.Prelude.{◌<◌, pos};
ghost use Rattle.integer.specs.Numbers.{Within};

// The surface over one cell, by the coefficients of 1, x, y and x y, which are as small as heights in range make them.
#[derive(Clone, Copy)]
pub struct Cell {
    pub base: i64,
    pub east: i64,
    pub north: i64,
    pub twist: i64,
    ghost base_small: { Within base (pos 300) },
    ghost east_small: { Within east (pos 600) },
    ghost north_small: { Within north (pos 600) },
    ghost twist_small: { Within twist (pos 1200) },
}

// A cell in one direction, and how far a place lies into it.
#[derive(Clone, Copy)]
pub struct Spot {
    pub index: usize,
    pub depth: i64,
    ghost on_lattice: { index < 128 },
    ghost inside: { Within depth (pos 262144) },
}
