// Writing a ServerHello (RFC 5246, section 7.4.1.3).
ghost use Rattle.writing.specs.Promise.{WritesServer};
ghost use Rattle.writing.specs.Tried.{TriesServer};

use crate::judging::{Written, judge};
use crate::lists::List;
use crate::opening::Opening;
use crate::places::{put_block, put_byte, put_opening, put_pair};
use crate::sizes::server_size;
use refusal::Reason;

const SERVER_HELLO: u8 = 2;

// 03 03, TLS 1.2
const VERSION: u16 = 771;

// Kept: C interface, which lends each field and the parts of the list by themselves.
pub fn write_server_hello(
    version: u16,
    random: &[u8],
    identifier: &[u8],
    suite: u16,
    compression: u8,
    block: bool,
    types: &[u16],
    lengths: &[u16],
    data: &[u8],
    out: &mut [u8],
) -> Written
    ensures { WritesServer version random.now identifier.now suite compression block types.now lengths.now «data».now out.old out.new result }
{
    let opening = Opening {
        version,
        random,
        identifier,
    };
    // What costs no walk is asked before the list is walked, and again where the size is counted.
    if !opening.is_bounded() {
        return Written::from(Err(Reason::Length));
    }
    let Some(list) = List::new(block, types, lengths, data) else {
        return Written::from(Err(Reason::Length));
    };
    Written::from(try_server(&opening, suite, compression, &list, out))
}

// How many bytes were written.
fn try_server(
    opening: &Opening,
    suite: u16,
    compression: u8,
    list: &List,
    out: &mut [u8],
) -> Result<usize, Reason>
    ensures { TriesServer opening.now.version opening.now.random.now opening.now.identifier.now suite compression list.now.block list.now.types.now list.now.lengths.now list.now.«data».now out.old out.new result }
{
    let size = server_size(opening, list)?;
    judge(list, opening.version != VERSION, size, out.len())?;
    let mut at = put_opening(out, SERVER_HELLO, size, opening);
    at = put_pair(out, at, suite as usize);
    at = put_byte(out, at, compression);
    put_block(out, at, list);
    Ok(size)
}
