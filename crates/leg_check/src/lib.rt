// The check of a leg against a field, written once for every field.
#![tactic(auto)]

mod halving;
mod verdict;

pub use halving::{check, most_bounds};
pub use verdict::Verdict;
