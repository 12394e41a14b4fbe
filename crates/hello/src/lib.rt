// Reading the two hellos of a handshake (RFC 5246, sections 7.4.1.2 and 7.4.1.3). What is read stays in the message: the answers
// are places in it.
#![tactic(auto)]

mod client;
mod extensions;
mod layout;
mod list;
mod next;
mod parts;
mod server;
mod suites;
mod walk;

pub use client::{ClientHello, read_client_hello};
pub use next::{Next, next_extension};
pub use parts::{Extensions, Part};
pub use server::{ServerHello, read_server_hello};
pub use suites::lists_suite;
pub use walk::well_shaped;
