// A line of the report.
ghost use Rattle.std.specs.Prelude.{◌≡◌, Some};
ghost use Rattle.leg_check.specs.Promise.{row_of};
ghost use Rattle.sheet.specs.Answers.{replied};
ghost use Rattle.dispatching.specs.Lines.{point_text, switch_text, asked, thing_of, finding, answered, ending_of, words_of, line_of};

use leg::Point;
use leg_check::Verdict;
use sheet::{Call, Reply, Success};
use std::fmt;

#[derive(Clone, Copy)]
struct Place(Point);

impl fmt::Display for Place {
    ghost output = { λ p. Some (point_text p.0) };

    fn fmt<W: fmt::Write>(&self, f: &mut fmt::Formatter<W>) -> fmt::Result {
        let Point { x, y, z } = self.0;
        write!(f, "({x}, {y}, {z})")
    }
}

// Whether an area is to be on.
#[derive(Clone, Copy)]
struct Switch(i64);

impl fmt::Display for Switch {
    ghost output = { λ on. Some (switch_text on.0) };

    fn fmt<W: fmt::Write>(&self, f: &mut fmt::Formatter<W>) -> fmt::Result {
        match self.0 {
            1 => write!(f, "on"),
            0 => write!(f, "off"),
            other => write!(f, "{other}"),
        }
    }
}

// What was asked.
#[derive(Clone, Copy)]
struct Asked(Call);

impl fmt::Display for Asked {
    ghost output = { λ call. Some (asked call.0) };

    fn fmt<W: fmt::Write>(&self, f: &mut fmt::Formatter<W>) -> fmt::Result {
        match self.0 {
            Call::Add { node } => {
                let kind = node.kind;
                write!(f, "add node of kind {kind}")
            }
            Call::TakeBack => write!(f, "take back the last node"),
            Call::Publish { area, node, on } => {
                let on = Switch(on);
                write!(f, "publish area {area} over node {node}, {on}")
            }
            Call::Switch { area, on } => {
                let on = Switch(on);
                write!(f, "switch area {area} {on}")
            }
            Call::Strike { area } => write!(f, "strike area {area}"),
            Call::Check { start, end } => {
                let start = Place(start);
                let end = Place(end);
                write!(f, "check {start} to {end}")
            }
        }
    }
}

// What a check found.
#[derive(Clone, Copy)]
struct Finding(Verdict);

impl fmt::Display for Finding {
    ghost output = { λ verdict. Some (finding (row_of verdict.0)) };

    fn fmt<W: fmt::Write>(&self, f: &mut fmt::Formatter<W>) -> fmt::Result {
        match self.0 {
            Verdict::Clear { bounds } => write!(f, "clear, bounds {bounds}"),
            Verdict::Inside => write!(f, "starts inside"),
            Verdict::Entered { piece, bounds } => {
                write!(f, "entered in piece {piece}, bounds {bounds}")
            }
            Verdict::Near { piece, bounds } => {
                write!(f, "near in piece {piece}, bounds {bounds}, not shown clear")
            }
        }
    }
}

// What the number of a call that is taken stands for. A check answers none.
fn thing(call: Call) -> &'static str
    ensures { result.now ≡ thing_of call }
{
    match call {
        Call::Add { .. } | Call::TakeBack => "node",
        Call::Publish { .. } | Call::Switch { .. } | Call::Strike { .. } => "area",
        Call::Check { .. } => "leg",
    }
}

// What was answered.
#[derive(Clone, Copy)]
struct Answered {
    call: Call,
    reply: Reply,
}

impl fmt::Display for Answered {
    ghost output = { λ a. Some (answered a.call (replied a.reply)) };

    fn fmt<W: fmt::Write>(&self, f: &mut fmt::Formatter<W>) -> fmt::Result {
        match self.reply {
            Ok(Success::Taken(number)) => {
                let thing = thing(self.call);
                write!(f, "{thing} {number}")
            }
            Ok(Success::Checked(verdict)) => {
                let finding = Finding(verdict);
                write!(f, "{finding}")
            }
            Err(refusal) => {
                let number = refusal.number();
                write!(f, "refused with {number}")
            }
        }
    }
}

// What comes of a call.
#[derive(Clone, Copy)]
enum Ending {
    Done,
    Unchanged,
    MayBeFiled,
    NotToBeFiled,
}

impl fmt::Display for Ending {
    ghost output = { λ ending. Some (words_of ending) };

    fn fmt<W: fmt::Write>(&self, f: &mut fmt::Formatter<W>) -> fmt::Result {
        match self {
            Ending::Done => write!(f, ", done"),
            Ending::Unchanged => write!(f, ", nothing changed"),
            Ending::MayBeFiled => write!(f, ": may be filed"),
            Ending::NotToBeFiled => write!(f, ": not to be filed"),
        }
    }
}

// Only a leg that was answered clear may be filed.
fn ending_for(call: Call, reply: Reply) -> Ending
    ensures { result ≡ ending_of call (replied reply) }
{
    match (call, reply) {
        (Call::Check { .. }, Ok(Success::Checked(Verdict::Clear { .. }))) => Ending::MayBeFiled,
        (Call::Check { .. }, _) => Ending::NotToBeFiled,
        (_, Ok(Success::Taken(_))) => Ending::Done,
        _ => Ending::Unchanged,
    }
}

// A call with the reply to it.
#[derive(Clone, Copy)]
pub(crate) struct Line {
    pub(crate) call: Call,
    pub(crate) reply: Reply,
}

impl fmt::Display for Line {
    ghost output = { λ line. Some (line_of line.call (replied line.reply)) };

    fn fmt<W: fmt::Write>(&self, f: &mut fmt::Formatter<W>) -> fmt::Result {
        let asked = Asked(self.call);
        let answered = Answered {
            call: self.call,
            reply: self.reply,
        };
        let ending = ending_for(self.call, self.reply);
        write!(f, "{asked}: {answered}{ending}\n")
    }
}
