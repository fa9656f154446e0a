// The report.
ghost use Rattle.std.specs.Prelude.{◌≡◌, IfOk, string_bytes};
ghost use Rattle.sheet.specs.Calls.{empty_sheet, built};
ghost use Rattle.sheet.specs.Answers.{answers_to};
ghost use Rattle.sheet.specs.Ran.{Ran};
ghost use Rattle.dispatching.specs.Lines.{report_of};
ghost use Rattle.dispatching.specs.Filing.{OnlyClear};

use crate::line::Line;
use sheet::{Call, run};
use std::alloc::{AllocError, Global};

// The calls, sent to an empty sheet one after the other, and a line for each: what was asked, and what was answered.
pub fn report(heap: Global, calls: &[Call]) -> Result<String, AllocError>
    ensures text { IfOk result (λ text. string_bytes text ≡ report_of calls.now) }
    ensures kept { IfOk result (λ _. Ran calls.now (answers_to empty_sheet calls.now) (built calls.now)) }
    ensures filed { IfOk result (λ text. OnlyClear calls.now (string_bytes text)) }
{
    let transcript = run(heap, calls)?;
    let mut text = String::new(heap);
    for (call, reply) in calls.iter().zip(&transcript.replies) {
        let line = Line {
            call: *call,
            reply: *reply,
        };
        write!(text, "{line}")?;
    }
    Ok(text)
}
