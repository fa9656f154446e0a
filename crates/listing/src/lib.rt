// From the bytes of four files to the listing that the program prints.
#![tactic(auto)]

mod ground;
mod legs;
mod positions;
mod printed;
mod rows;
mod worked;

pub use files::Output;
pub use printed::listing;
pub use worked::worked_halves;
