// From the text of two tables to the sheet that they describe.
#![tactic(auto)]

mod part;
mod tables;

pub use files::LoadError;
pub use tables::load;
