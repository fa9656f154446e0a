// From the bytes of four files to what the program writes.
#![tactic(auto)]

ghost use Rattle.std.specs.Prelude.{◌≡◌, ◌++◌, IfOk, OnOk};
ghost use Rattle.std.specs.List.{flat_map};
ghost use Rattle.table.specs.Reading.{reading};
ghost use Rattle.files.specs.Errors.{Stops};
ghost use Rattle.table.specs.Left.{left_of};
ghost use Rattle.files.specs.Outputs.{Written, Writes};
ghost use Rattle.report.specs.Report.{row_line, heading, table_text, terrain_text, output_of};

pub use files::Output;
use files::{File, Files, LoadError, TableRows, push_line};
use std::alloc::{AllocError, Global};
use table::table::Table;

// The rows that are still to be read, a line each.
fn push_rows(out: &mut Vec<u8>, rows: &mut TableRows) -> Result<(), LoadError>
    ensures stop { Stops rows.old.table (left_of rows.old.rows).stop result }
    ensures text { OnOk result (out.new.items ≡ out.old.items ++ flat_map (row_line rows.old.table) (left_of rows.old.rows).rows) }
{
    let columns = rows.table.names().len();
    while let Some(row) = rows.next()? {
        push_line(out, &row[..columns])?;
    }
    Ok(())
}

// The lines above a table's rows.
fn push_heading(out: &mut Vec<u8>, table: Table, line: &[u8]) -> Result<(), AllocError>
    ensures { OnOk result (out.new.items ≡ out.old.items ++ heading table line.now) }
{
    let file = File::from(table);
    let title = format!(in *out.allocator(); "{file}\ncolumns as written: ")?;
    out.extend_from_slice(title.as_bytes())?;
    out.extend_from_slice(line)?;
    out.push(b'\n')?;
    push_line(out, table.names())
}

// A table as it was read.
fn push_table(out: &mut Vec<u8>, table: Table, text: &[u8]) -> Result<(), LoadError>
    ensures stop { Stops table (reading table text.now).stop result }
    ensures text { OnOk result (out.new.items ≡ out.old.items ++ table_text table text.now (reading table text.now).rows) }
{
    let mut rows = TableRows::open(table, text)?;
    push_heading(out, table, rows.names)?;
    push_rows(out, &mut rows)
}

fn push_terrain(out: &mut Vec<u8>, bytes: &[u8]) -> Result<(), AllocError>
    ensures { OnOk result (out.new.items ≡ out.old.items ++ terrain_text bytes.now) }
{
    let file = File::Terrain;
    let count = bytes.len();
    let text = format!(in *out.allocator(); "{file}\n{count} bytes\n")?;
    out.extend_from_slice(text.as_bytes())?;
    Ok(())
}

// What was read of the four files, or the first fault of the tables.
fn files_output(heap: Global, input: Files<'_>) -> Result<Output, LoadError>
    ensures { Writes (output_of input.entry.nodes.now input.entry.areas.now input.entry.terrain.now input.entry.legs.now) result }
{
    let mut text = Vec::new(heap);
    push_table(&mut text, Table::Nodes, input.nodes)?;
    push_table(&mut text, Table::Areas, input.areas)?;
    push_terrain(&mut text, input.terrain)?;
    push_table(&mut text, Table::Legs, input.legs)?;
    Ok(Output { text, fault: None })
}

// The first fault of the tables, or what was read of the four files.
pub fn report(heap: Global, input: Files<'_>) -> Result<Output, AllocError>
    ensures { IfOk result (λ o. Written (output_of input.entry.nodes.now input.entry.areas.now input.entry.terrain.now input.entry.legs.now) o) }
{
    files_output(heap, input).or_else(|error| Output::stopped(Vec::new(heap), error))
}
