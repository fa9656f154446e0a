ghost use Rattle.std.specs.Prelude.{◌≡◌, ◌≤◌, length};
ghost use Rattle.table.specs.Names.{column_names, held};

// The tables of text.
#[derive(Clone, Copy)]
pub enum Table {
    Nodes,
    Areas,
    Legs,
}

const NODES: [&[u8]; 13] = [
    b"kind", b"a", b"b", b"px", b"py", b"pz", b"sx", b"sy", b"sz", b"lx", b"ly", b"lz", b"k",
];

const AREAS: [&[u8]; 3] = [b"area", b"node", b"on"];

const LEGS: [&[u8]; 6] = [b"x1", b"y1", b"z1", b"x2", b"y2", b"z2"];

impl Table {
    // The table's names, in its own order of columns.
    pub fn names(self) -> &'static [&'static [u8]]
        ensures bytes { held result.now ≡ column_names self }
        ensures count { length result.now ≡ length (column_names self) }
        ensures few { length result.now ≤ 13 }
    {
        match self {
            Table::Nodes => &NODES,
            Table::Areas => &AREAS,
            Table::Legs => &LEGS,
        }
    }
}
