// The ground: layers from the surface down, and what may be done to them.
#![tactic(auto)]

pub mod layer;
pub mod table;
#[cfg(test)]
mod tests;
