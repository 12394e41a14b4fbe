// What SHA-256 and SHA-384 share (FIPS 180-4): the words, the message schedule, the rounds and the step of a block, generic over the word.
#![tactic(auto)]

mod begun;
mod bytes;
mod constants;
mod running;
mod word;
mod words;

pub use begun::{end_by, end_short, fits};
pub use running::{MOST, end, exceeds, take, whole};
pub use words::Words;
