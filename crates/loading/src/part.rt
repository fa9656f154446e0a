// The two tables that a sheet is loaded from, and their rows as calls.
ghost use Rattle.std.specs.Prelude.{◌≡◌, List, ℤ};
ghost use Rattle.table.specs.declared.table.Table.{Table};
ghost use Rattle.table.specs.declared.table.Table.TheVariants.{Nodes, Areas};
ghost use Rattle.sheet.specs.declared.call.Call.{Call};
ghost use Rattle.sheet.specs.Calls.{after};
ghost use Rattle.sheet.specs.Answers.{done, told};
ghost use Rattle.sheet.specs.Held.{data_of};
ghost use Rattle.loading.specs.Loading.{node_of, add_of, publish_of};

use nodes::Node;
use refusal::Refusal;
use sheet::Sheet;
use table::table::Table;

// A table whose rows are calls of a sheet.
pub(crate) trait Part {
    ghost part_table: { Table };

    ghost call: { List ℤ → Call };

    fn table() -> Table
        ensures { result ≡ part_table };

    // Makes the call that a row says.
    fn send(sheet: &mut Sheet, row: &[i64; 13]) -> Result<usize, Refusal>
        ensures answer { told result ≡ done (data_of sheet.old) (call row.now) }
        ensures after { data_of sheet.new ≡ after (data_of sheet.old) (call row.now) };
}

// Each row is a node that is added.
pub(crate) struct NodeRows;

impl Part for NodeRows {
    ghost part_table = { Nodes };

    ghost call = { add_of };

    fn table() -> Table {
        Table::Nodes
    }

    fn send(sheet: &mut Sheet, row: &[i64; 13]) -> Result<usize, Refusal> {
        sheet.add(node_of(row))
    }
}

// Each row is an area that is published.
pub(crate) struct AreaRows;

impl Part for AreaRows {
    ghost part_table = { Areas };

    ghost call = { publish_of };

    fn table() -> Table {
        Table::Areas
    }

    fn send(sheet: &mut Sheet, row: &[i64; 13]) -> Result<usize, Refusal> {
        sheet.publish(row[0], row[1], row[2])
    }
}

// A function and no `From`, which would have to stand in the crate of `Node`.
fn node_of(row: &[i64; 13]) -> Node
    ensures { result ≡ node_of row.now }
{
    let [kind, a, b, px, py, pz, sx, sy, sz, lx, ly, lz, k] = *row;
    Node {
        kind,
        a,
        b,
        px,
        py,
        pz,
        sx,
        sy,
        sz,
        lx,
        ly,
        lz,
        k,
    }
}
