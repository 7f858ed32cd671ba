// The shaft of a pile in its ground: the parts that a march goes up, and the facts by which it never overflows.
#![tactic(auto)]

pub mod held;
#[cfg(test)]
mod tests;
