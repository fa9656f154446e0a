ghost use Rattle.std.specs.Prelude.{◌≡◌, ◌^◌, ◌<◌, ◌≤◌, ◌==◌, ◌∷◌, length, position, IfOk, MatchResult};
ghost use Rattle.std.specs.Iterator.{YieldsFirstRef, item_count};
ghost use Rattle.table.specs.Text.{fields, fields_in, lines, first_line, LinePart};
ghost use Rattle.table.specs.Names.{position_of};
ghost use Rattle.table.specs.Reading.{line_at};

use refusal::{Fault, Refusal};

// The most bytes of a line before its line feed.
const LONGEST: usize = 200;

// Where a byte first stands.
pub fn find(s: &[u8], byte: u8) -> Option<usize>
    ensures { result ≡ position (λ b. b == byte) s.now }
{
    s.iter().position(|b| *b == byte)
}

// The first field of a line, and what stands after its space, if it has one.
fn split(line: &[u8]) -> (&[u8], Option<&[u8]>)
    ensures { fields line.now ≡ result.0.now ∷ fields_in result.1 }
{
    match find(line, b' ') {
        Some(n) => (&line[..n], Some(&line[n + 1..])),
        None => (line, None),
    }
}

// The fields of a line, one after another.
#[derive(Drop)]
pub struct Fields<'a> {
    rest: Option<&'a [u8]>,
}

impl<'a> Fields<'a> {
    pub fn of(line: &'a [u8]) -> Fields<'a>
        ensures all { fields_in result.rest ≡ fields line.now }
        ensures few { length (fields_in result.rest) ≤ 2 ^ 63 }
    {
        Fields { rest: Some(line) }
    }
}

impl<'a> Iterator for Fields<'a> {
    type Item = &'a [u8];

    ghost next_gives = { YieldsFirstRef (λ s. fields_in s.rest) };

    ghost remaining = { item_count (λ s. fields_in s.rest) };

    fn next(&mut self) -> Option<&'a [u8]> {
        let (field, rest) = split(self.rest?);
        self.rest = rest;
        Some(field)
    }
}

// The place where a field first stands in a line.
pub fn place_in(line: &[u8], field: &[u8]) -> Option<usize>
    ensures { result ≡ position_of (fields line.now) field.now }
{
    Fields::of(line).position(|f| f == field)
}

// The line that a text begins with, if it has a line feed, at most 200 bytes and the right number of fields.
pub fn line_at(text: &[u8], columns: usize, number: usize) -> Result<&[u8], Fault>
    ensures value { MatchResult result (λ l. line_at columns number (lines text.now) ≡ Ok l.now) (λ f. line_at columns number (lines text.now) ≡ Err f) }
    ensures part { IfOk result (λ l. (l.now ≡ first_line text.now) × (length l.now < length text.now) × (length (fields l.now) ≡ columns) × LinePart text.now 0 l.now) }
{
    let line = match find(text, b'\n') {
        Some(n) if n <= LONGEST => &text[..n],
        _ => return Err(Fault::new(Refusal::LineEnd, number, 0)),
    };
    if Fields::of(line).count() != columns {
        return Err(Fault::new(Refusal::FieldCount, number, 0));
    }
    Ok(line)
}
