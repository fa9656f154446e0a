ghost use Rattle.std.specs.Prelude.{◌≡◌, pos};
ghost use Rattle.lattice.specs.Meaning.{WorkedTerrain};

use crate::scale::{HEIGHT, LEVEL};

// The value at z = 11 over heights of 10. Its contract has the worked values of terrain.
pub fn worked_value() -> i64
    ensures value { result ≡ pos 68719476736 }
    ensures worked { WorkedTerrain }
{
    LEVEL * (4096 * 11) - HEIGHT * 10
}
