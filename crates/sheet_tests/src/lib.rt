// Calls on a sheet one after the other, refused ones among them, and what the sheet then answers.
#![tactic(auto)]

#[cfg(test)]
mod adding;
#[cfg(test)]
mod checking;
#[cfg(test)]
mod joining;
#[cfg(test)]
mod publishing;
#[cfg(test)]
mod running;
#[cfg(test)]
mod shared;
