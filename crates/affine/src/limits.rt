ghost use Rattle.std.specs.Prelude.{◌≡◌, pos};
ghost use Rattle.affine.specs.Fits.{Suffices, end_limit};

// 2^61 + 2^21. Forms whose ends are within it, either way from 0, can be added, turned, measured and compared.
pub fn ends_limit() -> i64
    ensures value { result ≡ pos end_limit }
    ensures enough { Suffices end_limit }
{
    (1 << 61) + (1 << 21)
}
