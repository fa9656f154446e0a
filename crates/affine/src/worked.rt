ghost use Rattle.std.specs.Prelude.{◌≡◌, pos};
ghost use Rattle.affine.specs.Worked.{form, WorkedForms};

use crate::Form;

// (3, 2, 1) times (5, -1, 2). Its contract has the worked numbers of products, ends, lesser and greater.
pub fn worked_product() -> Form
    ensures value { result ≡ form (pos 15) (pos 7) (pos 20) }
    ensures worked { WorkedForms }
{
    let u = Form {
        u0: 3,
        u1: 2,
        u2: 1,
    };
    let v = Form {
        u0: 5,
        u1: -1,
        u2: 2,
    };
    u.product(v)
}
