// The lines of a sheet: a line as a call, and an answer as a line.
#![tactic(auto)]

mod fields;
pub mod letter;
pub mod reading;
pub mod writing;
