// The report on a list of calls: what was asked, what was answered, and which legs may be filed.
#![tactic(auto)]

mod line;
mod reporting;

pub use reporting::report;
