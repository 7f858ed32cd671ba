// The resistance of a pile by a friction rule, its margin, the design capacity and the verdict.
#![tactic(auto)]

pub mod fetching;
pub mod judging;
pub mod margin;
#[cfg(test)]
mod tests;
