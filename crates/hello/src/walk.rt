// The extensions of a hello, which end where the message ends. Each is a type and a length of two bytes each, and so many bytes.
ghost use Rattle.std.specs.Prelude.{◌≡◌, ◌+◌, ◌<◌, ◌≤◌, ◌^◌, length, IfOk};
ghost use Rattle.message.specs.Numbers.{pair_at};
ghost use Rattle.hello.specs.Extensions.{shaped};
ghost use Rattle.hello.specs.Entries.{entry_at};
ghost use Rattle.hello.specs.Places.{behind};

use crate::parts::Part;
use message::byte;
use refusal::Reason;

// Kept: a type is any number of 16 bits, and those that are not known here are handed out too.
// extended_master_secret, 00 17
pub(crate) const EMS: usize = 23;

// renegotiation_info, ff 01
pub(crate) const RI: usize = 65281;

// The two known types have their own shape; the data of any other is not read.
pub fn well_shaped(kind: usize, data: &[u8]) -> bool
    ensures { result ≡ shaped kind «data».now }
{
    match kind {
        EMS => data.len() == 0,
        RI => data.len() == 1 + byte(data, 0),
        _ => true,
    }
}

// An extension that stands whole in a message.
#[derive(Clone, Copy)]
pub(crate) struct Entry {
    pub at: usize,
    pub kind: usize,
    pub data: Part,
}

// Two bytes that stand in a message, as a number. `pair`, which any place may be asked, tests each byte again: over a long list that is
// most of a step.
fn two(message: &[u8], at: usize) -> usize
    requires { at + 1 < length message.now }
    ensures { (result ≡ pair_at message.now at) × (result < 65536) }
{
    256 * message[at] as usize + message[at + 1] as usize
}

// The extension at a place, or where it is cut off: its type and length by the end, its data by what the length claims.
pub(crate) fn read_entry(message: &[u8], at: usize) -> Result<Entry, Reason>
    ensures value { result ≡ entry_at message.now at }
    ensures fits { IfOk result (λ e. e.kind < 65536) }
    ensures within { IfOk result (λ e. behind e.«data» ≤ length message.now) }
{
    let left = message.len().saturating_sub(at);
    if left < 4 {
        return Err(Reason::Malformed(message.len()));
    }
    let length = two(message, at + 2);
    if left - 4 < length {
        return Err(Reason::Malformed(at + 2));
    }
    Ok(Entry {
        at,
        kind: two(message, at),
        data: Part { at: at + 4, length },
    })
}
