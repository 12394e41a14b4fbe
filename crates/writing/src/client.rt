// Writing a ClientHello (RFC 5246, section 7.4.1.2).
ghost use Rattle.writing.specs.Promise.{WritesClient};
ghost use Rattle.writing.specs.Tried.{TriesClient};

use crate::judging::{Written, judge};
use crate::lists::List;
use crate::opening::Opening;
use crate::places::{put_block, put_opening, put_vector};
use crate::sizes::{client_size, offers};
use refusal::Reason;

const CLIENT_HELLO: u8 = 1;

// 03 03, TLS 1.2
const LOWEST: u16 = 771;

// Kept: C interface, which lends each field and the parts of the list by themselves.
pub fn write_client_hello(
    version: u16,
    random: &[u8],
    identifier: &[u8],
    suites: &[u8],
    methods: &[u8],
    block: bool,
    types: &[u16],
    lengths: &[u16],
    data: &[u8],
    out: &mut [u8],
) -> Written
    ensures { WritesClient version random.now identifier.now suites.now methods.now block types.now lengths.now «data».now out.old out.new result }
{
    let opening = Opening {
        version,
        random,
        identifier,
    };
    // What costs no walk is asked before the list is walked, and again where the size is counted.
    if !opening.is_bounded() || !offers(suites.len(), methods.len()) {
        return Written::from(Err(Reason::Length));
    }
    let Some(list) = List::new(block, types, lengths, data) else {
        return Written::from(Err(Reason::Length));
    };
    Written::from(try_client(&opening, suites, methods, &list, out))
}

// How many bytes were written.
fn try_client(
    opening: &Opening,
    suites: &[u8],
    methods: &[u8],
    list: &List,
    out: &mut [u8],
) -> Result<usize, Reason>
    ensures { TriesClient opening.now.version opening.now.random.now opening.now.identifier.now suites.now methods.now list.now.block list.now.types.now list.now.lengths.now list.now.«data».now out.old out.new result }
{
    let size = client_size(opening, suites, methods, list)?;
    judge(list, opening.version < LOWEST, size, out.len())?;
    let mut at = put_opening(out, CLIENT_HELLO, size, opening);
    at = put_vector(out, at, suites, 65534);
    at = put_vector(out, at, methods, 255);
    put_block(out, at, list);
    Ok(size)
}
