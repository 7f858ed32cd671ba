// One pile in axial compression: its numbers, the averaging under its tip, and its resistance over a list of frictions. It knows no friction rule.
#![tactic(auto)]

pub mod driven;
pub mod footing;
pub mod frictions;
pub mod numbers;
pub mod parts;
pub mod resistance;
#[cfg(test)]
mod tests;
pub mod tip;
