// The rows of a table, with the file that a fault of theirs stands in.
ghost use Rattle.std.specs.Prelude.{◌≡◌, ℕ, ◌≤◌, List, length, Ok, Err, MatchResult, IfOk};
ghost use Rattle.table.specs.Text.{first_line};
ghost use Rattle.table.specs.Reading.{reading};
ghost use Rattle.files.specs.Files.{file_of};
ghost use Rattle.files.specs.Rows.{names_of, Next};
ghost use Rattle.table.specs.Left.{left_of};

use crate::file::{File, FileFault};
use refusal::Fault;
use table::reader::{Opened, Rows};
use table::table::Table;

// A table whose names line was accepted: that line, and the rows that are still to be read.
#[derive(Drop)]
pub struct TableRows<'a> {
    pub table: Table,
    pub names: &'a [u8],
    rows: Rows<'a>,
    ghost same: { rows.table ≡ table },
    ghost small: { length rows.text.now ≤ 65536 },
    ghost begun: { 1 ≤ rows.line },
}

// The rows of a text; the fault, if the text is no table or its names are refused.
fn open_rows<'a>(table: Table, text: &'a [u8]) -> Result<TableRows<'a>, Fault>
    ensures names { MatchResult result (λ r. (heads : List (List ℕ)) × (names_of table text.now ≡ Ok heads)) (λ f. names_of table text.now ≡ Err f) }
    ensures rows { IfOk result (λ r. (r.table ≡ table) × (r.names.now ≡ first_line text.now) × (r.rows.line ≡ 1) × (reading table text.now ≡ left_of r.rows)) }
{
    let opened = Opened::new(table, text)?;
    let accepted = opened.names()?;
    let names = opened.line()?;
    let rows = opened.rows(accepted);
    Ok(TableRows { table, names, rows })
}

impl<'a> TableRows<'a> {
    // The rows of a text; the fault, if the text is no table or its names are refused.
    pub fn open(table: Table, text: &'a [u8]) -> Result<TableRows<'a>, FileFault>
        ensures table { MatchResult result (λ r. r.table ≡ table) (λ f. f.file ≡ file_of table) }
        ensures names { MatchResult result (λ r. (heads : List (List ℕ)) × (names_of table text.now ≡ Ok heads)) (λ f. names_of table text.now ≡ Err f.fault) }
        ensures rows { IfOk result (λ r. (r.names.now ≡ first_line text.now) × (r.rows.line ≡ 1) × (reading table text.now ≡ left_of r.rows)) }
    {
        open_rows(table, text).map_err(|fault| FileFault {
            file: File::from(table),
            fault,
        })
    }

    // How many lines were read: the number of the line of the row given last.
    pub fn lines_read(&self) -> usize
        ensures { result ≡ self.now.rows.line }
    {
        self.rows.lines_read()
    }

    // The next row in the table's own order of columns, none after the last; or the fault of its line.
    pub fn next(&mut self) -> Result<Option<[i64; 13]>, FileFault>
        ensures row { Next self.old.table self.old.rows self.new.rows result }
        ensures table { self.new.table ≡ self.old.table }
    {
        let file = File::from(self.table);
        self.rows.next().map_err(|fault| FileFault { file, fault })
    }
}
