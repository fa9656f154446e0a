#![tactic(auto)]

ghost use Rattle.std.specs.Prelude.{◌≡◌, ◌≤◌, Some};
ghost use Rattle.refusal.specs.Numbers.{number_of, layer_of, number_of_layer, fault, fault_row};

mod layer;

pub use layer::Layer;
use std::fmt;

// Why a call or a text is sent back. docs/RULES.md has the list with its numbers and their order.
#[derive(Clone, Copy, PartialEq, Eq, Debug)]
pub enum Refusal {
    // the text is empty, over 65536 bytes, or its first byte is not a to z
    TextStart = 1,
    // the line has no line feed, or over 200 bytes before it
    LineEnd = 2,
    // the line has not as many fields as the table
    FieldCount = 3,
    // a names field is no name of the table, or repeats one
    ColumnName = 4,
    // a value field is not a whole number
    FieldValue = 5,
    // add: the sheet has 64 nodes
    SheetFull = 6,
    // add: the kind is not 1 to 5
    NodeKind = 7,
    // add: a needed a or b is not an earlier node
    NodeReference = 8,
    // add: a column that the kind does not use is not 0
    UnusedColumn = 9,
    // add: a quadric's number is outside its range
    QuadricRange = 10,
    // add: the reach exceeds 2^60
    NodeReach = 11,
    // take back: there is no node
    NoNode = 12,
    // take back: a published area has the last node
    NodeInUse = 13,
    // publish, switch, strike: the area number is not 0 to 15
    AreaNumber = 14,
    // publish: the area is already published
    AreaPublished = 15,
    // switch, strike: the area is not published
    AreaNotPublished = 16,
    // publish: the node is not in the sheet
    AreaNode = 17,
    // publish, switch: on is not 0 or 1
    AreaSwitch = 18,
    // check: a coordinate is outside its range
    CoordinateRange = 19,
    // check: start and end are the same point
    SamePoint = 20,
    // lattice: there are not 16641 heights
    LatticeSize = 21,
    // lattice: a height is not -16 to 300
    HeightRange = 22,
    // layer: the reach exceeds 2^60 + 2^20
    LayerReach = 23,
    // a half-step is not 0 to 4096
    HalfStepRange = 24,
    // a piece is not one that halving a leg gives
    PieceShape = 25,
}

impl Refusal {
    // The refusal's number, from 1 to 25; no other refusal has it.
    pub fn number(self) -> u8
        ensures value { result ≡ number_of self }
        ensures low { 1 ≤ result }
        ensures high { result ≤ 25 }
        ensures own { (other : Refusal) → number_of other ≡ result → other ≡ self }
    {
        self as u8
    }

    // The layer that refuses so.
    pub fn layer(self) -> Layer
        ensures { number_of_layer result ≡ layer_of (number_of self) }
    {
        match self.number() {
            0..=4 => Layer::Line,
            5 => Layer::Value,
            6..=20 => Layer::Sheet,
            _ => Layer::Field,
        }
    }
}

// A refusal with its place in a text. Line and column count from 1 and are 0 where there is none.
#[derive(Clone, Copy, PartialEq, Eq, Debug)]
pub struct Fault {
    pub refusal: Refusal,
    pub line: usize,
    pub column: usize,
}

impl Fault {
    pub fn new(refusal: Refusal, line: usize, column: usize) -> Fault
        ensures { result ≡ fault refusal line column }
    {
        Fault {
            refusal,
            line,
            column,
        }
    }

    // The number of the refusal.
    pub fn number(self) -> u8
        ensures { result ≡ number_of self.refusal }
    {
        self.refusal.number()
    }

    // The layer of the refusal.
    pub fn layer(self) -> Layer
        ensures { number_of_layer result ≡ layer_of (number_of self.refusal) }
    {
        self.refusal.layer()
    }
}

// The fault's numbers: refusal, layer, line and column.
impl fmt::Display for Fault {
    ghost output = { λ f. Some (fault_row f) };

    fn fmt<W: fmt::Write>(&self, f: &mut fmt::Formatter<W>) -> fmt::Result {
        let number = self.number();
        let layer = self.layer().number();
        let line = self.line;
        let column = self.column;
        write!(f, "{number} {layer} {line} {column}")
    }
}
