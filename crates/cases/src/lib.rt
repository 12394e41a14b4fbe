// A case: handshake messages in a file, behind their contents. What the programs over cases share.
#![tactic(auto)]

mod buffer;
mod contents;
mod digits;

pub use buffer::Buffer;
pub use contents::is_good;
pub use digits::{Decimal, decimal_of};
