// The names line.
ghost use Rattle.std.specs.Prelude.{◌≡◌, ℕ, ◌+◌, ◌^◌, ◌<◌, min, not, List, length, position, IfSome, MatchResult};
ghost use Rattle.std.specs.List.{enumerate_from};
ghost use Rattle.refusal.specs.declared.Refusal.TheVariants.{ColumnName};
ghost use Rattle.table.specs.Text.{fields, first_line};
ghost use Rattle.table.specs.Names.{column_names, held, known, packed, place_at, places_of, unpacked};
ghost use Rattle.table.specs.Reading.{opened_text, checked, good_name, heads_of, standing, HandsOut, reading, Named};
ghost use Rattle.table.specs.Left.{left_of};

use crate::parts::{Fields, find, line_at, place_in};
use crate::reader::{Names, Opened, Order, Rows};
use refusal::{Fault, Refusal};
use std::array;

// The field at this place of a names line is a name of the table and stands there for the first time.
fn is_good_name(names: &[&[u8]], line: &[u8], place: usize, field: &[u8]) -> bool
    ensures { result ≡ good_name (held names.now) (fields line.now) place field.now }
{
    names.contains(&field) && place_in(line, field) == Some(place)
}

// The place of the first field of a names line that is no name of the table or repeats one.
fn bad_name(names: &[&[u8]], line: &[u8]) -> Option<usize>
    ensures value { result ≡ position (λ (p : ℕ × List ℕ). not (good_name (held names.now) (fields line.now) p.0 p.1)) (enumerate_from 0 (fields line.now)) }
    ensures small { IfSome result (λ place. place < 2 ^ 63) }
{
    Fields::of(line)
        .enumerate()
        .position(|(place, field)| !is_good_name(names, line, place, field))
}

// Refuses a names line with such a field.
fn check_names(names: &[&[u8]], line: &[u8]) -> Result<(), Fault>
    ensures { MatchResult result (λ _. checked (good_name (held names.now) (fields line.now)) ColumnName 1 (fields line.now) ≡ Ok (fields line.now)) (λ f. checked (good_name (held names.now) (fields line.now)) ColumnName 1 (fields line.now) ≡ Err f) }
{
    match bad_name(names, line) {
        Some(place) => Err(Fault::new(Refusal::ColumnName, 1, place + 1)),
        None => Ok(()),
    }
}

// The place of a column's name in a names line; 13 if there is no such column or no such name.
fn place_at(names: &[&[u8]], line: &[u8], column: usize) -> usize
    ensures { result ≡ place_at (held names.now) (fields line.now) column }
{
    names
        .get(column)
        .and_then(|name| place_in(line, name))
        .unwrap_or(13)
}

// Where the columns of a row stand.
fn places_of(names: &[&[u8]], line: &[u8]) -> [usize; 13]
    ensures { result ≡ places_of (held names.now) (fields line.now) }
{
    array::from_fn(|column| place_at(names, line, column))
}

impl<'a> Opened<'a> {
    // The names line, a part of the text; refuses 2 and 3.
    pub fn line(&self) -> Result<&'a [u8], Fault>
        ensures { MatchResult result (λ l. HandsOut self.now.table self.now.text.now 0 0 l.now) (λ f. standing self.now.table self.now.text.now 0 0 ≡ Err f) }
    {
        line_at(self.text, self.table.names().len(), 1)
    }

    // The names line, if it is accepted; refuses 2 to 4, and leaves this reader where it was.
    pub fn names(&self) -> Result<Names<'a>, Fault>
        ensures { MatchResult result (λ n. (n.text.now ≡ self.now.text.now) × (n.table ≡ self.now.table) × Named self.now.table self.now.text.now (unpacked n.order.packed) × (n.order.packed ≡ packed (unpacked n.order.packed))) (λ f. heads_of (column_names self.now.table) self.now.text.now ≡ Err f) }
    {
        let names = self.table.names();
        let line = self.line()?;
        check_names(names, line)?;
        Ok(Names {
            text: self.text,
            table: self.table,
            order: Order::pack(places_of(names, line)),
        })
    }

    // On to the rows of the text whose names line was accepted.
    pub fn rows(self, names: Names<'a>) -> Rows<'a>
        ensures text { result.text.now ≡ names.entry.text.now }
        ensures table { result.table ≡ names.entry.table }
        ensures order { result.order ≡ names.entry.order }
        ensures at { result.at ≡ min (length (first_line names.entry.text.now) + 1) (length names.entry.text.now) }
        ensures line { result.line ≡ 1 }
        ensures whole { opened_text names.entry.text.now ≡ Ok names.entry.text.now → Named names.entry.table names.entry.text.now (unpacked names.entry.order.packed) → reading names.entry.table names.entry.text.now ≡ left_of result }
    {
        let at = match find(names.text, b'\n') {
            Some(n) => n + 1,
            None => names.text.len(),
        };
        Rows {
            text: names.text,
            table: names.table,
            order: names.order,
            at,
            line: 1,
        }
    }
}
