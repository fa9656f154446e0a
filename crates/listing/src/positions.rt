// Printed positions.
ghost use Rattle.std.specs.Prelude.{◌≡◌, ◌≤◌, pos};
ghost use Rattle.integer.specs.Numbers.{Within};
ghost use Rattle.listing.specs.Positions.{scaled_at, magnitude_of, rounded as rounded_of, Nearest};

// n / 2048, rounded to the nearest whole number, halves up.
fn magnitude(n: u64) -> u64
    requires { n ≤ 33554432 }
    ensures value { result ≡ magnitude_of n }
    ensures small { result ≤ 33554432 }
{
    (n + 1024) / 2048
}

// n / 2048, rounded to the nearest whole number, halves away from zero.
pub(crate) fn rounded(n: i64) -> i64
    requires { Within n (pos 33554432) }
    ensures value { result ≡ rounded_of n }
    ensures nearest { Nearest n result }
{
    let whole = magnitude(n.unsigned_abs()) as i64;
    if n >= 0 { whole } else { -whole }
}

// The coordinate at the start of a piece of a leg on which it goes from `a` to `b`, rounded.
pub(crate) fn position_at(a: i64, b: i64, piece: u16) -> i64
    requires a_in { Within a (pos 4096) }
    requires b_in { Within b (pos 4096) }
    requires piece_in { piece ≤ 2048 }
    ensures { result ≡ rounded_of (scaled_at a b piece) }
{
    rounded(2048 * a + (b - a) * i64::from(piece))
}
