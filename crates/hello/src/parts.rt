ghost use Rattle.std.specs.Prelude.{◌≡◌, ◌+◌, ◌≤◌, ◌<◌, ◌^◌, length, slice_range};
ghost use Rattle.hello.specs.Places.{behind, bytes_at};

// A part of a message: where it begins, counted from the message's first byte, and how many bytes it has.
#[repr(C)]
#[derive(Clone, Copy, Default)]
pub struct Part {
    pub at: usize,
    pub length: usize,
}

impl Part {
    // The place behind it.
    pub(crate) fn end(self) -> usize
        requires { behind self < 2 ^ 64 }
        ensures { result ≡ behind self }
    {
        self.at + self.length
    }

    // The bytes of the message that it is.
    pub(crate) fn of(self, message: &[u8]) -> &[u8]
        requires { behind self ≤ length message.now }
        ensures { result.now ≡ bytes_at message.now self }
    {
        &message[self.at..self.end()]
    }
}

// What a hello says by its extensions. Flags are 0 or 1.
// Kept: C interface.
#[repr(C)]
#[derive(Clone, Copy, Default)]
pub struct Extensions {
    // there is an extension block, which may be empty
    pub block: u8,
    // the list of extensions in it
    pub list: Part,
    // renegotiation_info is there, and its bytes
    pub indicated: u8,
    pub indication: Part,
    // extended_master_secret is there
    pub ems: u8,
    // a type other than these two is there
    pub others: u8,
}
