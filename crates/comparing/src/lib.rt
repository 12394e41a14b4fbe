// What the program `casediff` prints: the differences of two cases, a line each.
#![tactic(auto)]

mod extensions;
mod fields;
mod lines;
mod messages;
mod whole;

pub use whole::compare;
