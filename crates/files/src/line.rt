// Lines of fields. They are bytes and no `String`, since a report has a names line as it stands in its file.
ghost use Rattle.std.specs.Prelude.{◌≡◌, ℕ, List, ◌++◌, map, OnOk};
ghost use Rattle.std.specs.Fmt.{signed_decimal};
ghost use Rattle.files.specs.Lines.{spaced, spaced_more};

use std::alloc::AllocError;

// What a line has as its fields.
pub trait Field {
    ghost text: { Self → List ℕ };

    // Writes the field.
    fn push_to(&self, out: &mut Vec<u8>) -> Result<(), AllocError>
        ensures { OnOk result (out.new.items ≡ out.old.items ++ text self.now) };
}

// The bytes as they are.
impl<'a> Field for &'a [u8] {
    ghost text = { λ bytes. bytes.now };

    fn push_to(&self, out: &mut Vec<u8>) -> Result<(), AllocError> {
        out.extend_from_slice(self)?;
        Ok(())
    }
}

// The number's digits, after a minus sign if it is below zero.
impl Field for i64 {
    ghost text = { signed_decimal };

    fn push_to(&self, out: &mut Vec<u8>) -> Result<(), AllocError> {
        let digits = format!(in *out.allocator(); "{self}")?;
        out.extend_from_slice(digits.as_bytes())?;
        Ok(())
    }
}

// The fields after the first of a line, each after a space, and the line feed.
fn push_more<F: Field>(out: &mut Vec<u8>, fields: &[F]) -> Result<(), AllocError>
    ensures { OnOk result (out.new.items ≡ out.old.items ++ spaced_more (map F.text fields.now)) }
{
    for field in fields {
        out.push(b' ')?;
        field.push_to(out)?;
    }
    out.push(b'\n')?;
    Ok(())
}

// A line of fields with a space between two.
pub fn push_line<F: Field>(out: &mut Vec<u8>, fields: &[F]) -> Result<(), AllocError>
    ensures { OnOk result (out.new.items ≡ out.old.items ++ spaced (map F.text fields.now)) }
{
    let Some((first, more)) = fields.split_first() else {
        out.push(b'\n')?;
        return Ok(());
    };
    first.push_to(out)?;
    push_more(out, more)
}
