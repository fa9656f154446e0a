ghost use Rattle.std.specs.Prelude.{◌≡◌, ◌<◌, ◌≤◌, length, IfSome, slice_index};
ghost use Rattle.table.specs.Number.{followed, magnitude_of, number_of, Says};

// The largest magnitude.
const MOST: u32 = 2147483647;

// A number with one digit more behind it, at most MOST.
fn followed(number: u32, digit: u8) -> Option<u32>
    ensures { result ≡ followed number digit }
{
    match digit {
        b'0'..=b'9' => {
            let longer = 10 * u64::from(number) + u64::from(digit - b'0');
            if longer <= u64::from(MOST) {
                Some(longer as u32)
            } else {
                None
            }
        }
        _ => None,
    }
}

// The number that at most ten digits write of which the first is 1 to 9, at most MOST.
fn parsed(digits: &[u8]) -> Option<u32>
    requires first { 48 < slice_index digits.now 0 }
    requires few { length digits.now ≤ 10 }
    ensures { result ≡ magnitude_of digits.now }
{
    let mut number = 0;
    for digit in digits {
        number = followed(number, *digit)?;
    }
    Some(number)
}

// 1 to 10 digits with no leading zero but 0 itself, at most MOST.
fn magnitude(digits: &[u8]) -> Option<u32>
    ensures value { result ≡ magnitude_of digits.now }
    ensures small { IfSome result (λ n. n ≤ 2147483647) }
{
    match digits {
        [b'1'..=b'9', ..] if digits.len() <= 10 => parsed(digits),
        [b'0'] => Some(0),
        _ => None,
    }
}

// The whole number that a field says, none where it says none.
pub fn number(field: &[u8]) -> Option<i64>
    ensures value { result ≡ number_of field.now }
    ensures says { Says field.now result }
{
    match field {
        [b'-', digits @ ..] => magnitude(digits).filter(|n| *n != 0).map(|n| -i64::from(n)),
        digits => magnitude(digits).map(i64::from),
    }
}
