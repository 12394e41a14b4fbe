// The connection record, the switches, and what a decision answers. Of a flag 0 is no and everything else is yes.
ghost use Rattle.std.specs.Prelude.{◌≡◌, ◌++◌};
ghost use Rattle.decision.specs.Connection.{fresh_connection, closed};

use refusal::Refusal;

// What a connection keeps from one handshake to the next. A later handshake on it is a renegotiation.
// Kept: C interface.
#[repr(C)]
#[derive(Clone, Copy)]
pub struct Connection {
    // a handshake has completed
    pub completed: u8,
    // the peer has shown secure renegotiation (RFC 5746): the indication flag
    pub indication: u8,
    // the renegotiation bar
    pub barred: u8,
    // verify_data of the last handshake: the client's, the server's
    pub client: [u8; 12],
    pub server: [u8; 12],
}

impl Connection {
    // Before any handshake.
    pub fn fresh() -> Connection
        ensures { result ≡ fresh_connection }
    {
        Connection {
            completed: 0,
            indication: 0,
            barred: 0,
            client: [0; 12],
            server: [0; 12],
        }
    }

    // A later handshake must not go on.
    pub(crate) fn is_closed(&self) -> bool
        ensures { result ≡ closed self.now }
    {
        self.completed != 0 && (self.barred != 0 || self.indication == 0)
    }

    // The client's verify_data and then the server's.
    pub(crate) fn verify_data(&self) -> [u8; 24]
        ensures { result ≡ self.now.client ++ self.now.server }
    {
        let mut both = [0; 24];
        both[..12].copy_from_slice(&self.client);
        both[12..].copy_from_slice(&self.server);
        both
    }
}

// Kept: C interface.
#[repr(C)]
#[derive(Clone, Copy)]
pub struct Switches {
    pub indication_required: u8,
    pub legacy_full: u8,
    pub legacy_resumption: u8,
}

// Where the number is not 0, all else is 0.
// Kept: C interface.
#[repr(C)]
#[derive(Clone, Copy)]
pub struct Decision {
    pub refusal: Refusal,
    pub resumes: u8,
    pub ems: u8,
    // the indication flag and the renegotiation bar that completion will write
    pub indication: u8,
    pub bar: u8,
    // key export, and verify_data for other uses, are barred
    pub bars_export: u8,
    pub bars_verify_data: u8,
    // how many bytes of reply were written; the client writes none
    pub reply_length: usize,
}
