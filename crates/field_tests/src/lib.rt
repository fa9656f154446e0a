// Two small fields, which go through the layers and the check.
#![tactic(auto)]

#[cfg(test)]
mod checks;
mod joined;
mod level;
mod side;

pub use joined::check_joined;
pub use level::Level;
pub use side::Side;
