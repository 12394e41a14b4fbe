// SHA-384 (FIPS 180-4): a running hash that is carried by value, the hash of a whole message, and the hash value of one block.
#![tactic(auto)]

mod begun;
mod compress;
mod running;
mod words;

pub use compress::State384;
pub use running::{Absorbed384, Digested384, Hash384, sha384};
