// The legs of the listing: its heading and a row for each leg.
ghost use Rattle.std.specs.Prelude.{◌≡◌, ◌-◌, ◌++◌, OnOk};
ghost use Rattle.table.specs.declared.table.Table.TheVariants.{Legs};
ghost use Rattle.table.specs.Reading.{reading};
ghost use Rattle.files.specs.Errors.{Stops, WithMemory};
ghost use Rattle.files.specs.Rows.{names_of};
ghost use Rattle.table.specs.Left.{left_of};
ghost use Rattle.files.specs.Outputs.{behind, Makes};
ghost use Rattle.sheet.specs.Held.{data_of};
ghost use Rattle.listing.specs.Rows.{rows_text};
ghost use Rattle.listing.specs.Ground.{joint_of};
ghost use Rattle.listing.specs.Listing.{heading, legs_by};

use crate::rows::push_row;
use files::{LoadError, TableRows};
use sheet::Sheet;
use std::alloc::AllocError;
use table::table::Table;
use terrain::Lattice;

// The rows that are still to be read, a line each, up to the fault if one ends them. The first leg stands in line 2.
fn push_rows(
    out: &mut Vec<u8>,
    sheet: &Sheet,
    lattice: &Option<Lattice>,
    rows: &mut TableRows,
) -> Result<(), LoadError>
    ensures stop { Stops rows.old.table (left_of rows.old.rows).stop result }
    ensures text { WithMemory result (out.new.items ≡ out.old.items ++ rows_text (joint_of lattice.now) (data_of sheet.now) (rows.old.rows.line - 1) (left_of rows.old.rows).rows) }
{
    while let Some(row) = rows.next()? {
        let leg = rows.lines_read() - 2;
        push_row(out, sheet, lattice, leg as u16, &row)?;
    }
    Ok(())
}

fn push_heading(out: &mut Vec<u8>) -> Result<(), AllocError>
    ensures { OnOk result (out.new.items ≡ out.old.items ++ heading) }
{
    out.extend_from_slice(b"leg answer piece bounds x y z\n")?;
    Ok(())
}

// The heading, once the names are accepted, and the rows, up to the fault if there is one.
pub(crate) fn push_legs(
    out: &mut Vec<u8>,
    sheet: &Sheet,
    lattice: &Option<Lattice>,
    legs: &[u8],
) -> Result<(), LoadError>
    ensures { Makes (behind out.old.items (legs_by (joint_of lattice.now) (data_of sheet.now) (names_of Legs legs.now) (reading Legs legs.now))) out.new.items result }
{
    let mut rows = TableRows::open(Table::Legs, legs)?;
    push_heading(out)?;
    push_rows(out, sheet, lattice, &mut rows)
}
