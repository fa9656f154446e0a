// The rows, one after another.
ghost use Rattle.std.specs.Prelude.{◌≡◌, ℕ, ◌≤◌, [], map, length, take, pos, MatchOption, MatchResult, ◌≢◌, slice_index_or};
ghost use Rattle.refusal.specs.declared.Refusal.TheVariants.{FieldValue};
ghost use Rattle.table.specs.Text.{fields};
ghost use Rattle.table.specs.Reading.{checked, good_value, value_of, filled, after, row_of};
ghost use Rattle.table.specs.Left.{rest_of, line_of, LineOf, next_of, left_of, Passed};

use crate::number::number;
use crate::parts::{Fields, line_at};
use crate::reader::{Order, Rows};
use refusal::{Fault, Refusal};
use std::array;

// The values of a line's fields; refuses the first field that is no number. A rule here: reading a row asks for no memory, so a row is an array as wide as the
// widest table.
fn values(line: &[u8], line_number: usize) -> Result<[i64; 13], Fault>
    requires { length (fields line.now) ≤ 13 }
    ensures { MatchResult result (λ vs. (checked good_value FieldValue line_number (fields line.now) ≡ Ok (fields line.now)) × ((k : ℕ) → slice_index_or vs k (pos 0) ≡ value_of (slice_index_or (fields line.now) k []))) (λ f. checked good_value FieldValue line_number (fields line.now) ≡ Err f) }
{
    let mut found = [0; 13];
    for (place, field) in Fields::of(line).enumerate() {
        let fault = Fault::new(Refusal::FieldValue, line_number, place + 1);
        found[place] = number(field).ok_or(fault)?;
    }
    Ok(found)
}

// The value at a place of a line, 0 past its fields.
fn value_at(found: &[i64; 13], place: usize) -> i64
    ensures { result ≡ slice_index_or found.now place (pos 0) }
{
    found.get(place).copied().unwrap_or(0)
}

// The values in the table's own order of columns, 0 past them.
fn arranged(found: &[i64; 13], places: &[usize; 13], columns: usize) -> [i64; 13]
    requires { columns ≤ 13 }
    ensures { result ≡ filled (map (λ place. slice_index_or found.now place (pos 0)) (take columns places.now)) }
{
    array::from_fn(|column| if column < columns {
        value_at(found, places[column])
    } else {
        0
    })
}

impl<'a> Rows<'a> {
    // The line that stands next, a part of the text, none after the last; refuses 2 and 3.
    pub fn line(&self) -> Result<Option<&'a [u8]>, Fault>
        ensures { MatchResult result (λ o. MatchOption o (rest_of self.now ≡ []) (λ l. LineOf self.now l.now)) (λ f. (rest_of self.now ≢ []) × (line_of self.now ≡ Err f)) }
    {
        let rest = &self.text[self.at..];
        if rest.is_empty() {
            return Ok(None);
        }
        line_at(rest, self.table.names().len(), self.line + 1).map(Some)
    }

    // The next row in the table's own order of columns, none after the last; refuses 2, 3 and 5, and then stays where it was.
    pub fn next(&mut self) -> Result<Option<[i64; 13]>, Fault>
        ensures value { result ≡ next_of self.old }
        ensures goes { left_of self.old ≡ after result (left_of self.new) }
        ensures text { self.new.text.now ≡ self.old.text.now }
        ensures table { self.new.table ≡ self.old.table }
        ensures order { self.new.order ≡ self.old.order }
        ensures stands { Passed result self.old self.new }
    {
        let Some(line) = self.line()? else {
            return Ok(None);
        };
        let number = self.line + 1;
        let found = values(line, number)?;
        self.at += line.len() + 1;
        self.line = number;
        let columns = self.table.names().len();
        let places = self.order.places();
        Ok(Some(arranged(&found, &places, columns)))
    }

    // The row that stands k rows on, none past the last; the fault, if one stands before it.
    pub(super) fn nth(&mut self, k: usize) -> Result<Option<[i64; 13]>, Fault>
        ensures { result ≡ row_of k (left_of self.old) }
    {
        // the reader is no `Iterator`, since an answer may be a fault: each step takes its `?`
        for _ in 0..k {
            if self.next()?.is_none() {
                return Ok(None);
            }
        }
        self.next()
    }
}
