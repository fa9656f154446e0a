// The five calls that change a sheet. Each answers the first refusal that fits and then leaves the sheet as it was.
ghost use Rattle.std.specs.Prelude.{◌≡◌, ◌<◌, IfOk, IsTrue, IsFalse, MatchResult, unsigned_abs};
ghost use Rattle.refusal.specs.declared.Refusal.TheVariants.{AreaNumber, AreaSwitch};
ghost use Rattle.sheet.specs.declared.call.Call.TheVariants.{Add, TakeBack, Publish, Switch, Strike};
ghost use Rattle.sheet.specs.Calls.{after, empty_sheet, names_area, is_on_or_off, is_on};
ghost use Rattle.sheet.specs.Answers.{done, told};
ghost use Rattle.sheet.specs.Held.{data_of};

use crate::sheet::Sheet;
use areas::{Area, Areas};
use nodes::{Node, Nodes, refers_to};
use refusal::Refusal;
use std::alloc::{AllocError, Global};

// The number of an area.
fn area_number(area: i64) -> Result<usize, Refusal>
    ensures { MatchResult result (λ n. IsTrue (names_area area) × (n ≡ unsigned_abs area) × (n < 16)) (λ e. IsFalse (names_area area) × (e ≡ AreaNumber)) }
{
    match area {
        0..=15 => Ok(area as usize),
        _ => Err(Refusal::AreaNumber),
    }
}

// Whether an area is to be on.
fn switch_position(on: i64) -> Result<bool, Refusal>
    ensures { MatchResult result (λ b. IsTrue (is_on_or_off on) × (b ≡ is_on on)) (λ e. IsFalse (is_on_or_off on) × (e ≡ AreaSwitch)) }
{
    match on {
        0 => Ok(false),
        1 => Ok(true),
        _ => Err(Refusal::AreaSwitch),
    }
}

impl Sheet {
    // Opens an empty sheet. Nothing else on a sheet asks for memory.
    pub fn new(heap: Global) -> Result<Sheet, AllocError>
        ensures { IfOk result (λ sheet. data_of sheet ≡ empty_sheet) }
    {
        let nodes = Vec::with_capacity(heap, 64)?;
        Ok(Sheet {
            nodes,
            areas: Areas::new(),
        })
    }

    // Records an area.
    pub fn publish(&mut self, area: i64, node: i64, on: i64) -> Result<usize, Refusal>
        ensures answer { told result ≡ done (data_of self.old) (Publish area node on) }
        ensures after { data_of self.new ≡ after (data_of self.old) (Publish area node on) }
    {
        let number = area_number(area)?;
        if self.areas.at(number).is_some() {
            return Err(Refusal::AreaPublished);
        }
        if !refers_to(self.nodes.len(), node) {
            return Err(Refusal::AreaNode);
        }
        let on = switch_position(on)?;
        let node = node as usize;
        self.areas.put(number, Some(Area { node, on }));
        Ok(number)
    }

    // Sets a published area on or off.
    pub fn switch(&mut self, area: i64, on: i64) -> Result<usize, Refusal>
        ensures answer { told result ≡ done (data_of self.old) (Switch area on) }
        ensures after { data_of self.new ≡ after (data_of self.old) (Switch area on) }
    {
        let number = area_number(area)?;
        let old = self.areas.at(number).ok_or(Refusal::AreaNotPublished)?;
        let on = switch_position(on)?;
        self.areas.put(number, Some(Area { on, ..old }));
        Ok(number)
    }

    // Removes an area, on or off. Its number can be published again.
    pub fn strike(&mut self, area: i64) -> Result<usize, Refusal>
        ensures answer { told result ≡ done (data_of self.old) (Strike area) }
        ensures after { data_of self.new ≡ after (data_of self.old) (Strike area) }
    {
        let number = area_number(area)?;
        if self.areas.at(number).is_none() {
            return Err(Refusal::AreaNotPublished);
        }
        self.areas.put(number, None);
        Ok(number)
    }

    // Puts a node at the end of the list.
    pub fn add(&mut self, node: Node) -> Result<usize, Refusal>
        ensures answer { told result ≡ done (data_of self.old) (Add node) }
        ensures after { data_of self.new ≡ after (data_of self.old) (Add node) }
    {
        let at = self.nodes.len();
        if at >= 64 {
            return Err(Refusal::SheetFull);
        }
        Nodes::new(&self.nodes).validate(&node)?;
        self.nodes.push_reserved(node);
        Ok(at)
    }

    // Removes the last node of the list.
    pub fn take_back(&mut self) -> Result<usize, Refusal>
        ensures answer { told result ≡ done (data_of self.old) TakeBack }
        ensures after { data_of self.new ≡ after (data_of self.old) TakeBack }
    {
        let count = self.nodes.len();
        if count == 0 {
            return Err(Refusal::NoNode);
        }
        if self.areas.has_node(count - 1) {
            return Err(Refusal::NodeInUse);
        }
        let _ = self.nodes.pop();
        Ok(count - 1)
    }
}
