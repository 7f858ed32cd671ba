// What every crate of the study shares: the limits of its numbers, and the reasons for which a call is refused.
#![tactic(auto)]

pub mod limits;
pub mod refusal;
pub mod soil;
#[cfg(test)]
mod tests;
