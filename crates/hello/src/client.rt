// Reading a ClientHello (RFC 5246, section 7.4.1.2).
ghost use Rattle.std.specs.Prelude.{◌≡◌, ◌≤◌, length};
ghost use Rattle.refusal.specs.Reason.{refused};
ghost use Rattle.hello.specs.Fields.{read_client};
ghost use Rattle.hello.specs.Places.{client_answer};
ghost use Rattle.hello.specs.Cuts.{ClientLays};

use crate::extensions::read_block;
use crate::layout::{BODY, opening, vector};
use crate::list::List;
use crate::parts::{Extensions, Part};
use crate::suites::lists_suite;
use message::{frame_as, pair};
use refusal::Reason;

// A ClientHello that was read.
// Kept: C interface.
#[repr(C)]
#[derive(Clone, Copy, Default)]
pub struct ClientHello {
    pub version: u16,
    pub random: Part,
    pub identifier: Part,
    pub suites: Part,
    pub methods: Part,
    // the signalling suite 00 ff is among the suites
    pub signal: u8,
    pub extensions: Extensions,
}

const CLIENT_HELLO: u8 = 1;

// 03 03, TLS 1.2
const LOWEST: u16 = 771;

// TLS_EMPTY_RENEGOTIATION_INFO_SCSV, 00 ff
const SIGNAL: u16 = 255;

// Kept: a trait over both readers, with its ghost members and laws, is longer than the steps that they share.
pub fn read_client_hello(message: &[u8]) -> Result<ClientHello, Reason>
    ensures { refused result ≡ client_answer (read_client message.now) }
{
    frame_as(message, CLIENT_HELLO)?;
    let laid = lay_client(message, BODY);
    let Ok(hello) = laid else {
        return Err(laid.unwrap_err());
    };
    let at = hello.extensions.list.at;
    List { message, at }.differ()?;
    if hello.version < LOWEST {
        return Err(Reason::Version);
    }
    Ok(hello)
}

// The fields, in their order, of a body that begins at place `start`.
fn lay_client(message: &[u8], start: usize) -> Result<ClientHello, Reason>
    requires { start ≤ length message.now }
    ensures { ClientLays message.now start result }
{
    let identifier = opening(message, start)?;
    let at = identifier.end();
    let suites = vector(message, at, 2, 65534)?;
    if suites.length % 2 != 0 {
        return Err(Reason::Malformed(at));
    }
    let methods = vector(message, suites.end(), 1, 255)?;
    let extensions = read_block(message, methods.end())?;
    Ok(ClientHello {
        version: pair(message, start) as u16,
        random: Part {
            at: start + 2,
            length: 32,
        },
        identifier,
        suites,
        methods,
        signal: u8::from(lists_suite(suites.of(message), SIGNAL)),
        extensions,
    })
}
