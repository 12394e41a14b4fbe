// The extension block of a hello, which is its last field.
ghost use Rattle.std.specs.Prelude.{◌≡◌, ◌+◌, ◌≤◌, ◌<◌, ◌^◌, length};
ghost use Rattle.hello.specs.Cuts.{list_at, Blocks};
ghost use Rattle.hello.specs.Places.{behind, bytes_part, extensions_at};

use crate::list::List;
use crate::parts::{Extensions, Part};
use crate::walk::{EMS, RI};
use message::pair;
use refusal::Reason;

// Nothing, or a length that covers exactly the rest, and extensions.
pub(crate) fn read_block(message: &[u8], at: usize) -> Result<Extensions, Reason>
    requires { at ≤ length message.now }
    ensures { Blocks message.now at result }
{
    if at == message.len() {
        return Ok(described(List { message, at }, false));
    }
    if message.len() - at < 2 {
        return Err(Reason::Malformed(message.len()));
    }
    let list = at + 2;
    if pair(message, at) != message.len() - list {
        return Err(Reason::Malformed(at));
    }
    Ok(described(List::read(message, list)?, true))
}

// What the extensions say.
fn described(list: List, block: bool) -> Extensions
    ensures { result ≡ extensions_at block list.entry.at (list_at list.entry.message.now list.entry.at) }
{
    let ri = list.data_of(RI);
    Extensions {
        block: u8::from(block),
        list: Part {
            at: list.at,
            length: list.message.len() - list.at,
        },
        indicated: u8::from(ri.is_some()),
        indication: ri.map(behind_length).unwrap_or_default(),
        ems: u8::from(list.data_of(EMS).is_some()),
        others: u8::from(list.has_others()),
    }
}

// The bytes of an RI, of which the first byte is the number.
fn behind_length(data: Part) -> Part
    requires { behind «data» < 2 ^ 64 }
    ensures { result ≡ bytes_part «data» }
{
    if data.length == 0 {
        return Part::default();
    }
    Part {
        at: data.at + 1,
        length: data.length - 1,
    }
}
