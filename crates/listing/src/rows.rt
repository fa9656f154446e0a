// The rows of the listing.
ghost use Rattle.std.specs.Prelude.{◌≡◌, ◌≤◌, [], ◌∷◌, ◌++◌, pos, OnOk};
ghost use Rattle.leg_check.specs.Promise.{row_of};
ghost use Rattle.sheet.specs.Answers.{checked, found};
ghost use Rattle.sheet.specs.Held.{data_of};
ghost use Rattle.listing.specs.Positions.{scaled_at, rounded};
ghost use Rattle.listing.specs.Rows.{column, start_of, end_of, answer_number, numbers_of_row, row_text, Shows, KeptBy, OnMap, Printable};
ghost use Rattle.listing.specs.Ground.{joint_of};

use crate::positions::position_at;
use files::push_line;
use leg::Point;
use leg_check::Verdict;
use refusal::Refusal;
use sheet::Sheet;
use std::alloc::AllocError;
use terrain::Lattice;

// What is printed of a leg: its number, the answer, and the piece, the bounds and the position that go with it.
#[derive(Clone, Copy)]
struct Row {
    leg: u16,
    answer: Answer,
    piece: i64,
    bounds: u16,
    at: [i64; 3],
}

// The answers by their numbers.
#[derive(Clone, Copy)]
enum Answer {
    Clear = 0,
    Inside = 1,
    Entered = 2,
    Near = 3,
    Refused = 4,
}

impl Answer {
    fn number(self) -> u8
        ensures { result ≡ answer_number self }
    {
        self as u8
    }
}

impl Row {
    // The numbers in the order in which they are printed.
    fn numbers(self) -> [i64; 7]
        ensures { Shows result self }
    {
        let [x, y, z] = self.at;
        [
            i64::from(self.leg),
            i64::from(self.answer.number()),
            self.piece,
            i64::from(self.bounds),
            x,
            y,
            z,
        ]
    }
}

// The position at the start of a piece.
fn position(row: &[i64; 13], piece: u16) -> [i64; 3]
    requires piece { piece ≤ 2048 }
    requires on_map { OnMap row.now }
    ensures { result ≡ rounded (scaled_at (column row.now 0) (column row.now 3) piece) ∷ rounded (scaled_at (column row.now 1) (column row.now 4) piece) ∷ rounded (scaled_at (column row.now 2) (column row.now 5) piece) ∷ [] }
{
    [
        position_at(row[0], row[3], piece),
        position_at(row[1], row[4], piece),
        position_at(row[2], row[5], piece),
    ]
}

// What is printed by a verdict: the end of a clear leg, the start of one that starts inside, else the start of the piece.
fn verdict_row(leg: u16, row: &[i64; 13], verdict: Verdict) -> Row
    requires { Printable row.now (checked (row_of verdict)) }
    ensures { Shows (numbers_of_row leg row.now (checked (row_of verdict))) result }
{
    let start = [row[0], row[1], row[2]];
    let end = [row[3], row[4], row[5]];
    let (answer, piece, bounds, at) = match verdict {
        Verdict::Clear { bounds } => (Answer::Clear, -1, bounds, end),
        Verdict::Inside => (Answer::Inside, 0, 0, start),
        Verdict::Entered { piece, bounds } => (
            Answer::Entered,
            i64::from(piece),
            bounds,
            position(row, piece),
        ),
        Verdict::Near { piece, bounds } => (
            Answer::Near,
            i64::from(piece),
            bounds,
            position(row, piece),
        ),
    };
    Row {
        leg,
        answer,
        piece,
        bounds,
        at,
    }
}

// What is printed by the answer to a check.
fn row_for(leg: u16, row: &[i64; 13], res: Result<Verdict, Refusal>) -> Row
    requires { Printable row.now (found res) }
    ensures { Shows (numbers_of_row leg row.now (found res)) result }
{
    match res {
        Ok(verdict) => verdict_row(leg, row, verdict),
        Err(refusal) => Row {
            leg,
            answer: Answer::Refused,
            piece: i64::from(refusal.number()),
            bounds: 0,
            at: [0, 0, 0],
        },
    }
}

// The ends of the leg that a row of the legs table says.
fn ends(row: &[i64; 13]) -> (Point, Point)
    ensures start { result.0 ≡ start_of row.now }
    ensures end { result.1 ≡ end_of row.now }
{
    let [x1, y1, z1, x2, y2, z2, ..] = *row;
    (Point::new(x1, y1, z1), Point::new(x2, y2, z2))
}

// The check of a row of the legs table, with the terrain as the first part of a union if there is one.
fn check_row(sheet: &Sheet, lattice: &Option<Lattice>, row: &[i64; 13]) -> Result<Verdict, Refusal>
    ensures { KeptBy (joint_of lattice.now) (data_of sheet.now) row.now (found result) }
{
    let (start, end) = ends(row);
    match lattice {
        Some(lattice) => sheet.check_with_first(lattice, start, end),
        None => sheet.check(start, end),
    }
}

// The line of a row.
#[tactic(auto, using(crate::proofs::Printing::printable_of))]
pub(crate) fn push_row(
    out: &mut Vec<u8>,
    sheet: &Sheet,
    lattice: &Option<Lattice>,
    leg: u16,
    row: &[i64; 13],
) -> Result<(), AllocError>
    ensures { OnOk result (out.new.items ≡ out.old.items ++ row_text (joint_of lattice.now) (data_of sheet.now) leg row.now) }
{
    let result = check_row(sheet, lattice, row);
    push_line(out, &row_for(leg, row, result).numbers())
}
