// A place in a queue: a session in plain bytes. Whose it is says the queue.
ghost use Rattle.std.specs.Prelude.{◌≡◌, ℕ, ◌≤◌, length, take};
ghost use Rattle.sessions.specs.Book.{is_named};
ghost use Rattle.sessions.specs.Keeps.{row_of, no_session, session_of};
ghost use Rattle.sessions.specs.Promises.{weighed};

// The identifier is the first `size` bytes; 0 in `ems` is no, everything else yes; of the suite the high byte comes first. It is two
// bytes and no number, so that a table has no padding.
// Kept: C interface.
#[repr(C)]
#[derive(Clone, Copy)]
pub struct Row {
    pub ems: u8,
    pub size: u8,
    pub suite: [u8; 2],
    pub identifier: [u8; 32],
    pub secret: [u8; 48],
}

// What a decision weighs of a session, and no secret. Of `ems` 0 is no and everything else is yes.
// Kept: callers of `decide_client` build it; a `bool` would ask more of them.
#[derive(Clone, Copy)]
pub struct Weighed {
    pub ems: u8,
    pub suite: u16,
}

impl Row {
    // A place that holds no session.
    pub(crate) fn blank() -> Row
        ensures { result ≡ no_session }
    {
        Row {
            ems: 0,
            size: 0,
            suite: [0; 2],
            identifier: [0; 32],
            secret: [0; 48],
        }
    }

    // The session in its place.
    pub(crate) fn of(identifier: &[u8], ems: bool, suite: u16, secret: &[u8]) -> Row
        requires { (length identifier.now ≤ 32) × (length secret.now ≡ 48) }
        ensures { (a : ℕ) → result ≡ row_of (record { axle = a; identifier = identifier.now; ems = ems; suite = suite; secret = secret.now }) }
    {
        let mut name = [0; 32];
        name[..identifier.len()].copy_from_slice(identifier);
        let mut key = [0; 48];
        key.copy_from_slice(secret);
        Row {
            ems: u8::from(ems),
            size: identifier.len() as u8,
            suite: suite.to_be_bytes(),
            identifier: name,
            secret: key,
        }
    }

    fn name(&self) -> &[u8]
        ensures { result.now ≡ take self.now.size self.now.identifier }
    {
        &self.identifier[..usize::from(self.size).min(32)]
    }

    pub(crate) fn is_named(&self, identifier: &[u8]) -> bool
        ensures { (a : ℕ) → result ≡ is_named a identifier.now (session_of a self.now) }
    {
        octets::same(self.name(), identifier)
    }

    pub(crate) fn weighed(&self) -> Weighed
        ensures { (a : ℕ) → result ≡ weighed (session_of a self.now) }
    {
        Weighed {
            ems: u8::from(self.ems != 0),
            suite: u16::from_be_bytes(self.suite),
        }
    }
}
