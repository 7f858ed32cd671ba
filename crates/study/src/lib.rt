// A study: a ground and a pile, under a friction rule and a transfer law.
#![tactic(auto)]

pub mod holder;
#[cfg(test)]
mod tests;
