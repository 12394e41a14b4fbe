// The extensions of a hello that was read, one after the other.
ghost use Rattle.std.specs.Prelude.{◌≡◌};
ghost use Rattle.hello.specs.Next.{next_at, no_next};

use crate::parts::Part;
use crate::walk::read_entry;

// An extension of a message, and the place of what follows it.
// Kept: C interface.
#[repr(C)]
#[derive(Clone, Copy, Default)]
pub struct Next {
    // 0 where no whole extension stands at the place asked; then all else is 0
    pub found: u8,
    pub kind: u16,
    pub data: Part,
    pub next: usize,
}

pub fn next_extension(message: &[u8], at: usize) -> Next
    ensures { result ≡ next_at message.now at }
{
    match read_entry(message, at) {
        Err(_) => Next::default(),
        Ok(e) => Next {
            found: 1,
            kind: e.kind as u16,
            data: e.data,
            next: e.data.end(),
        },
    }
}
