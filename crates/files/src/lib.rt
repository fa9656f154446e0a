// The four files: their names and numbers, a fault in one of them, and what is written of them.
#![tactic(auto)]

mod error;
mod file;
mod line;
mod output;
mod rows;

pub use error::LoadError;
pub use file::{File, FileFault, Files};
pub use line::{Field, push_line};
pub use output::Output;
pub use rows::TableRows;
