// The rows of both tables, each used before the next line is looked at.
ghost use Rattle.std.specs.Prelude.{◌≡◌, ℕ, List, IfOk};
ghost use Rattle.table.specs.declared.table.Table.TheVariants.{Nodes, Areas};
ghost use Rattle.table.specs.Reading.{reading};
ghost use Rattle.table.specs.Rearranged.{Rearranged};
ghost use Rattle.files.specs.Files.{file_of};
ghost use Rattle.sheet.specs.Held.{data_of};
ghost use Rattle.loading.specs.Loading.{load_reading, placed_in_file, loaded_of};
ghost use Rattle.loading.specs.Loads.{rest_of, Ends, Loads, Built};

use crate::part::{AreaRows, NodeRows, Part};
use files::{File, FileFault, LoadError, TableRows};
use refusal::Fault;
use sheet::Sheet;
use std::alloc::Global;

// The rows that are still to be read.
fn load_rows<P: Part>(sheet: &mut Sheet, rows: &mut TableRows) -> Result<(), FileFault>
    ensures { Ends result (data_of sheet.new) (placed_in_file (file_of rows.old.table) (rest_of P.call (data_of sheet.old) rows.old.rows)) }
{
    while let Some(row) = rows.next()? {
        let file = File::from(rows.table);
        let line = rows.lines_read();
        P::send(sheet, &row).map_err(|refusal| FileFault {
            file,
            fault: Fault::new(refusal, line, 0),
        })?;
    }
    Ok(())
}

// A table from its first line on.
fn load_table<P: Part>(sheet: &mut Sheet, text: &[u8]) -> Result<(), FileFault>
    ensures { Ends result (data_of sheet.new) (placed_in_file (file_of P.part_table) (load_reading P.call (data_of sheet.old) (reading P.part_table text.now))) }
{
    let mut rows = TableRows::open(P::table(), text)?;
    load_rows::<P>(sheet, &mut rows)
}

// The sheet with the nodes of the first table and the areas of the second, or the first fault.
pub fn load(heap: Global, nodes: &[u8], areas: &[u8]) -> Result<Sheet, LoadError>
    ensures exact { Loads nodes.now areas.now result }
    ensures built { IfOk result (λ sheet. Built nodes.now areas.now (data_of sheet)) }
    ensures same { (places others places' others' : List ℕ) → Rearranged Nodes places nodes.now others → Rearranged Areas places' areas.now others' → loaded_of others others' ≡ loaded_of nodes.now areas.now }
{
    let mut sheet = Sheet::new(heap)?;
    load_table::<NodeRows>(&mut sheet, nodes)?;
    load_table::<AreaRows>(&mut sheet, areas)?;
    Ok(sheet)
}
