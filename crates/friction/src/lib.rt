// Friction rules: the unit shaft friction of a layer, asked with soil, category of the pile and net limit pressure.
#![tactic(auto)]

mod asked;
pub mod cone;
pub mod pressuremeter;
pub mod rule;
#[cfg(test)]
mod tests;
