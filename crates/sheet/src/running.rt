// A list of calls, run on a sheet from its opening on.
ghost use Rattle.std.specs.Prelude.{◌≡◌, map, IfOk};
ghost use Rattle.sheet.specs.Calls.{after};
ghost use Rattle.sheet.specs.Answers.{told, found, replied, answer_of};
ghost use Rattle.sheet.specs.Ran.{Ran};
ghost use Rattle.sheet.specs.Held.{data_of};

use crate::call::{Call, Reply, Success};
use crate::sheet::Sheet;
use leg_check::Verdict;
use refusal::Refusal;
use std::alloc::{AllocError, Global};

// What a list of calls left: the sheet, and the reply to each call in their order.
#[derive(Drop)]
pub struct Transcript {
    pub sheet: Sheet,
    pub replies: Vec<Reply>,
}

// With `map` written in `send` itself, in place of these two, its proof did not close.
fn numbered(res: Result<usize, Refusal>) -> Reply
    ensures { replied result ≡ told res }
{
    res.map(Success::Taken)
}

fn judged(res: Result<Verdict, Refusal>) -> Reply
    ensures { replied result ≡ found res }
{
    res.map(Success::Checked)
}

impl Sheet {
    // Any call, as a value: the same steps as the calls themselves.
    fn send(&mut self, call: Call) -> Reply
        ensures answer { replied result ≡ answer_of (data_of self.old) call }
        ensures after { data_of self.new ≡ after (data_of self.old) call }
    {
        match call {
            Call::Add { node } => numbered(self.add(node)),
            Call::TakeBack => numbered(self.take_back()),
            Call::Publish { area, node, on } => numbered(self.publish(area, node, on)),
            Call::Switch { area, on } => numbered(self.switch(area, on)),
            Call::Strike { area } => numbered(self.strike(area)),
            Call::Check { start, end } => judged(self.check(start, end)),
        }
    }
}

// Opens a sheet, sends it the calls one after the other, and answers each. Want of memory is found out before the first call.
pub fn run(heap: Global, calls: &[Call]) -> Result<Transcript, AllocError>
    ensures { IfOk result (λ t. Ran calls.now (map replied t.replies.items) (data_of t.sheet)) }
{
    let mut sheet = Sheet::new(heap)?;
    let mut replies = Vec::with_capacity(heap, calls.len())?;
    for call in calls {
        replies.push_reserved(sheet.send(*call));
    }
    Ok(Transcript { sheet, replies })
}
