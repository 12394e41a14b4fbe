// The server's and the client's decisions on a hello: renegotiation (RFC 5746), resumption and the extended master secret (RFC 7627).
#![tactic(auto)]

mod client;
mod connection;
mod indication;
mod outcome;
mod reply;
mod server;

pub use client::{Lent, decide_client};
pub use connection::{Connection, Decision, Switches};
pub use server::decide_server;
