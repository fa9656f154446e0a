ghost use Rattle.std.specs.Prelude.{◌≡◌};
ghost use Rattle.affine.specs.Worked.{form};

use affine::{Form, ends_limit, worked_product};

fn form(u0: i64, u1: i64, u2: i64) -> Form
    ensures { result ≡ form u0 u1 u2 }
{
    Form { u0, u1, u2 }
}

#[test]
fn sums_up_to_the_last_number(rt: HostRuntime) {
    assert_eq!(rt;
        form(9223372036854775806, 5, 3).sum(form(1, -5, 4)),
        form(9223372036854775807, 0, 7)
    );
    assert_eq!(rt;
        form(-9223372036854775807, 0, 0).sum(form(-1, 0, 0)),
        form(-9223372036854775808, 0, 0)
    );
}

#[test]
fn multiples_shifts_and_opposites(rt: HostRuntime) {
    assert_eq!(rt; form(3, 2, 1).scaled(-3), form(-9, -6, 3));
    assert_eq!(rt; form(3, 2, 1).scaled(0), form(0, 0, 0));
    assert_eq!(rt; form(3, 2, 1).shifted(-10), form(-7, 2, 1));
    assert_eq!(rt; form(3, -2, 1).opposite(), form(-3, 2, 1));
}

#[test]
fn products(rt: HostRuntime) {
    assert_eq!(rt; worked_product(), form(15, 7, 20));
    assert_eq!(rt; form(3, 2, 1).product(form(5, -1, 2)), form(15, 7, 20));
    assert_eq!(rt; form(-3, 0, 0).product(form(-5, 0, 0)), form(15, 0, 0));
    assert_eq!(rt; form(-3, -2, 1).product(form(5, 0, 0)), form(-15, -10, 5));
}

#[test]
fn ends(rt: HostRuntime) {
    assert_eq!(rt; form(15, 7, 20).low(), -12);
    assert_eq!(rt; form(15, 7, 20).high(), 42);
    assert_eq!(rt; form(0, -5, 2).low(), -7);
    assert_eq!(rt; form(0, -5, 2).high(), 7);
    assert_eq!(rt; ends_limit(), 2305843009215791104);
}

#[test]
fn the_lesser_of_two(rt: HostRuntime) {
    assert_eq!(rt; form(10, 2, 0).lesser(form(11, 0, 4)), form(10, 0, 3));
    // an odd sum of ends below 0 is rounded up
    assert_eq!(rt; form(-2, 0, 2).lesser(form(-2, 0, 1)), form(-2, 0, 2));
}

#[test]
fn the_lesser_where_ends_touch(rt: HostRuntime) {
    assert_eq!(rt; form(0, 1, 0).lesser(form(3, 0, 2)), form(0, 1, 0));
    assert_eq!(rt; form(3, 0, 2).lesser(form(0, 1, 0)), form(0, 1, 0));
}

#[test]
fn the_greater_of_two(rt: HostRuntime) {
    assert_eq!(rt; form(10, 2, 0).greater(form(11, 0, 4)), form(12, 0, 4));
}

#[test]
fn the_greater_where_the_first_is_above(rt: HostRuntime) {
    assert_eq!(rt; form(3, 0, 2).greater(form(0, 1, 0)), form(3, 0, 2));
}

#[test]
fn the_greater_where_the_second_is_above(rt: HostRuntime) {
    assert_eq!(rt; form(0, 1, 0).greater(form(3, 0, 2)), form(3, 0, 2));
}
