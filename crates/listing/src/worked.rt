// The worked cases.
ghost use Rattle.std.specs.Prelude.{◌≡◌, [], ◌∷◌, pos, negsuc};
ghost use Rattle.listing.specs.Worked.{Worked};

use crate::positions::rounded;

// 1/2 and -1/2 as they are printed. The contract has all the worked cases of the libraries, collected.
pub fn worked_halves() -> [i64; 2]
    ensures value { result ≡ pos 1 ∷ negsuc 0 ∷ [] }
    ensures worked { Worked }
{
    [rounded(1024), rounded(-1024)]
}
