// Writing the two hellos of a handshake (RFC 5246, sections 7.4.1.2 and 7.4.1.3): fields and an ordered list of extensions become one
// whole message at the front of a lent buffer. The reader is the crate `hello`.
#![tactic(auto)]

mod client;
mod judging;
mod lists;
mod opening;
mod places;
mod server;
mod sizes;

pub use client::write_client_hello;
pub use judging::Written;
pub use server::write_server_hello;
