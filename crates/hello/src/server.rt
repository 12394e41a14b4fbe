// Reading a ServerHello (RFC 5246, section 7.4.1.3).
ghost use Rattle.std.specs.Prelude.{◌≡◌, ◌≤◌, length};
ghost use Rattle.refusal.specs.Reason.{refused};
ghost use Rattle.hello.specs.Fields.{read_server};
ghost use Rattle.hello.specs.Places.{server_answer};
ghost use Rattle.hello.specs.Cuts.{ServerLays};

use crate::extensions::read_block;
use crate::layout::{BODY, opening};
use crate::list::List;
use crate::parts::{Extensions, Part};
use message::{byte, frame_as, pair};
use refusal::Reason;

// A ServerHello that was read.
// Kept: C interface.
#[repr(C)]
#[derive(Clone, Copy, Default)]
pub struct ServerHello {
    pub version: u16,
    pub random: Part,
    pub identifier: Part,
    pub suite: u16,
    // the compression method
    pub compression: u8,
    pub extensions: Extensions,
}

const SERVER_HELLO: u8 = 2;

// 03 03, TLS 1.2
const VERSION: u16 = 771;

// Kept: a trait over both readers, with its ghost members and laws, is longer than the steps that they share.
pub fn read_server_hello(message: &[u8]) -> Result<ServerHello, Reason>
    ensures { refused result ≡ server_answer (read_server message.now) }
{
    frame_as(message, SERVER_HELLO)?;
    let laid = lay_server(message, BODY);
    let Ok(hello) = laid else {
        return Err(laid.unwrap_err());
    };
    let at = hello.extensions.list.at;
    List { message, at }.differ()?;
    if hello.version != VERSION {
        return Err(Reason::Version);
    }
    Ok(hello)
}

// The fields, in their order, of a body that begins at place `start`.
fn lay_server(message: &[u8], start: usize) -> Result<ServerHello, Reason>
    requires { start ≤ length message.now }
    ensures { ServerLays message.now start result }
{
    let identifier = opening(message, start)?;
    let suite = identifier.end();
    if message.len() - suite < 3 {
        return Err(Reason::Malformed(message.len()));
    }
    let extensions = read_block(message, suite + 3)?;
    Ok(ServerHello {
        version: pair(message, start) as u16,
        random: Part {
            at: start + 2,
            length: 32,
        },
        identifier,
        suite: pair(message, suite) as u16,
        compression: byte(message, suite + 2) as u8,
        extensions,
    })
}
