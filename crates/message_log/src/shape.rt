// A message by itself: what is asked of it whatever the log.
ghost use Rattle.std.specs.Prelude.{◌≡◌, not, ◌≤◌, length};
ghost use Rattle.octets.specs.Same.{same};
ghost use Rattle.message.specs.Frame.{body_of};
ghost use Rattle.message_log.specs.Calls.{wrong_body};
ghost use Rattle.message_log.specs.Steps.{Judges};

use crate::kind;
use refusal::Reason;

const HEADER: usize = 4;

// Where the length stands in it: the place of a body that has another one than its type asks for.
const LENGTH: usize = 1;

// How many bytes of verify_data a Finished has.
const VERIFY_DATA: usize = 12;

// The type of the message.
pub(crate) fn judge(message: &[u8]) -> Result<u8, Reason>
    ensures { Judges message.now result }
{
    let header = message::frame(message)?;
    if !fits(header.kind, header.length) {
        return Err(Reason::Malformed(LENGTH));
    }
    Ok(header.kind)
}

// A HelloRequest has no body, a Finished 12 bytes.
#[tactic(auto, unfolding(crate::specs::Calls::wrong_body))]
fn fits(kind: u8, length: usize) -> bool
    ensures { result ≡ not (wrong_body kind length) }
{
    match kind {
        kind::HELLO_REQUEST => length == 0,
        kind::FINISHED => length == VERIFY_DATA,
        _ => true,
    }
}

// Is verify_data the body of the message? Every byte is compared.
pub(crate) fn carries(message: &[u8], value: [u8; 12]) -> bool
    requires { 4 ≤ length message.now }
    ensures { result ≡ same (body_of message.now) value }
{
    octets::same(&message[HEADER..], &value)
}
