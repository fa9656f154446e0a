// Edges of legs, half-steps, pieces and forms.
#![tactic(auto)]

#[cfg(test)]
mod forms;
#[cfg(test)]
mod legs;
