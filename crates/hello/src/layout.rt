// Fields of a message (RFC 5246, sections 4.3 and 7.4.1): vectors, which are a length and so many bytes, and how both hellos begin.
ghost use Rattle.std.specs.Prelude.{◌≡◌, ◌+◌, ◌≤◌};
ghost use lib.ListN.{length};
ghost use Rattle.hello.specs.Layout.{from, vector};
ghost use Rattle.hello.specs.Cuts.{width_of, Cuts, Opens};

use crate::parts::Part;
use message::{byte, pair};
use refusal::Reason;

// Where the body of a message begins, behind the header.
pub(crate) const BODY: usize = 4;

// A vector of `low` to `high` bytes, at place `at`. Its length takes as many bytes as `high` does, one or two.
pub(crate) fn vector(message: &[u8], at: usize, low: usize, high: usize) -> Result<Part, Reason>
    requires { at ≤ length message.now }
    ensures { Cuts message.now (at + width_of high) (vector (width_of high) low high (from message.now at)) result }
{
    let (width, length) = if high < 256 {
        (1, byte(message, at))
    } else {
        (2, pair(message, at))
    };
    if message.len() - at < width {
        return Err(Reason::Malformed(message.len()));
    }
    let start = at + width;
    if length < low || high < length || message.len() - start < length {
        return Err(Reason::Malformed(at));
    }
    Ok(Part { at: start, length })
}

// How both hellos begin: version, random and the session identifier, which is the part taken.
pub(crate) fn opening(message: &[u8], start: usize) -> Result<Part, Reason>
    requires { start ≤ length message.now }
    ensures { Opens message.now start result }
{
    let at = start + 34;
    if message.len() < at {
        return Err(Reason::Malformed(message.len()));
    }
    vector(message, at, 0, 32)
}
