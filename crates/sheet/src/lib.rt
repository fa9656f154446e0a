// A sheet of closed areas, its calls, and the check of legs against it.
#![tactic(auto)]

mod call;
mod calls;
mod checks;
mod running;
mod sheet;
mod worked;

pub use call::{Call, Reply, Success};
pub use running::{Transcript, run};
pub use sheet::Sheet;
pub use worked::worked_calls;
