ghost use Rattle.std.specs.Prelude.{◌≡◌, ℕ, ◌+◌, ◌<◌, ◌≤◌, List, length, None, All, MatchResult};
ghost use Rattle.refusal.specs.declared.Refusal.TheVariants.{TextStart};
ghost use Rattle.refusal.specs.Numbers.{fault};
ghost use Rattle.table.specs.Text.{feeds};
ghost use Rattle.table.specs.Names.{packed, place_of, unpacked};
ghost use Rattle.table.specs.Reading.{opened_text, reading, row_of, Complete};
ghost use Rattle.table.specs.Rearranged.{Rearranged};

mod heads;
mod steps;

use crate::table::Table;
use refusal::{Fault, Refusal};
use std::array;

// For each of the thirteen columns of a row the place of its field in the text: four bits each, the first column's lowest.
// A rule here: a row reader holds the text and numbers alone, so the order of columns is packed into one.
#[derive(Clone, Copy)]
pub struct Order {
    packed: u64,
}

impl Order {
    // The order in which the columns have these places.
    fn pack(places: [usize; 13]) -> Order
        requires { All (λ place. place < 16) places }
        ensures number { result.packed ≡ packed places }
        ensures places { unpacked result.packed ≡ places }
    {
        let packed = places
            .iter()
            .rev()
            .fold(0, |packed, place| packed << 4 | *place as u64);
        Order { packed }
    }

    // The place of a column.
    fn place(self, column: usize) -> usize
        requires { column < 13 }
        ensures { result ≡ place_of self.packed column }
    {
        ((self.packed >> (4 * column)) & 15) as usize
    }

    // The places of all the columns.
    fn places(self) -> [usize; 13]
        ensures { result ≡ unpacked self.packed }
    {
        array::from_fn(|column| self.place(column))
    }
}

// A text of which only the names line can be read.
#[derive(Drop)]
pub struct Opened<'a> {
    text: &'a [u8],
    table: Table,
}

// An accepted names line: the text that it heads and the order of its columns.
#[derive(Drop)]
pub struct Names<'a> {
    text: &'a [u8],
    table: Table,
    order: Order,
}

// A text whose names line was accepted: `line` lines of it were read, up to the offset `at`.
#[derive(Drop)]
pub struct Rows<'a> {
    text: &'a [u8],
    table: Table,
    order: Order,
    at: usize,
    line: usize,
    ghost within: { at ≤ length text.now },
    ghost counted: { line ≤ at + 1 },
}

impl<'a> Opened<'a> {
    // A reader of a table's text; refuses 1.
    pub fn new(table: Table, text: &'a [u8]) -> Result<Opened<'a>, Fault>
        ensures { MatchResult result (λ o. (opened_text text.now ≡ Ok text.now) × (o.text.now ≡ text.now) × (o.table ≡ table)) (λ f. (opened_text text.now ≡ Err f) × (f ≡ fault TextStart 1 0)) }
    {
        match text {
            [b'a'..=b'z', ..] if text.len() <= 65536 => Ok(Opened { text, table }),
            _ => Err(Fault::new(Refusal::TextStart, 1, 0)),
        }
    }
}

impl<'a> Rows<'a> {
    // How many lines were read: the number of the line of the row given last.
    pub fn lines_read(&self) -> usize
        ensures { result ≡ self.now.line }
    {
        self.line
    }
}

// The row numbered k of a text, from 0, none past the last; the fault, if one stands before it.
pub fn row(table: Table, text: &[u8], k: usize) -> Result<Option<[i64; 13]>, Fault>
    ensures value { result ≡ row_of k (reading table text.now) }
    ensures complete { (reading table text.now).stop ≡ None → Complete (feeds text.now) k result }
    ensures same { (places other : List ℕ) → Rearranged table places text.now other → result ≡ row_of k (reading table other) }
{
    let opened = Opened::new(table, text)?;
    let names = opened.names()?;
    let mut rows = opened.rows(names);
    rows.nth(k)
}
