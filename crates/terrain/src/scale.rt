// What counts how much in a value, and in a scaled coordinate.

// 2^18, the width of a cell in scaled coordinates.
pub(crate) const CELL: i64 = 262144;

// 2^24, how far the low edge of the lattice lies below 0 in scaled coordinates.
pub(crate) const EDGE: i64 = 16777216;

// 2^24, what one in a scaled z counts in a value.
pub(crate) const LEVEL: i64 = 16777216;

// 2^36, what one in a height counts in a value.
pub(crate) const HEIGHT: i64 = 68719476736;
