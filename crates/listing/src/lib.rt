// What the program `loglist` prints: a line for each message of a case.
#![tactic(auto)]

mod case;
mod feed;
mod line;

pub use case::{Text, list};
