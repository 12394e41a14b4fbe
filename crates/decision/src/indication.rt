// The renegotiation indication (RFC 5746, sections 3.4 to 3.7). An `indication` is the bytes of the hello's renegotiation_info, RI, if it
// has one.
ghost use Rattle.std.specs.Prelude.{◌≡◌, true, ◌||◌, ◌≤◌, length};
ghost use Rattle.seqs.specs.Pick.{pick};
ghost use Rattle.seqs.specs.Flag.{yes};
ghost use Rattle.refusal.specs.Reason.{said};
ghost use Rattle.hello.specs.Places.{behind, bytes_at};
ghost use Rattle.decision.specs.Connection.{later, present, saying, wrong_first};
ghost use Rattle.decision.specs.Steps.{ri_of, ri_in, server_indication, client_indication};

use crate::connection::{Connection, Switches};
use hello::Extensions;
use refusal::Reason;

// As it stands in a hello.
pub(crate) fn indication_of(message: &[u8], extensions: Extensions) -> Option<&[u8]>
    requires { behind extensions.indication ≤ length message.now }
    ensures { ri_in result ≡ ri_of (yes extensions.indicated) (bytes_at message.now extensions.indication) }
{
    if extensions.indicated == 0 {
        return None;
    }
    let part = extensions.indication;
    let end = part.at + part.length;
    Some(&message[part.at..end])
}

// In a first handshake: RI is empty; without it the signal stands in, or nothing where that is allowed.
fn first(signal: bool, indication: Option<&[u8]>, switches: &Switches) -> Result<(), Reason>
    ensures { said result ≡ pick (wrong_first switches.now signal (ri_in indication.entry)) 5 0 }
{
    let wrong = match indication {
        Some(bytes) => !bytes.is_empty(),
        None => !signal && switches.indication_required != 0,
    };
    if wrong {
        return Err(Reason::Indication);
    }
    Ok(())
}

// RI is there and holds what is expected, compared whole.
fn says(indication: Option<&[u8]>, expected: &[u8]) -> Result<(), Reason>
    ensures { said result ≡ pick (saying expected.now (ri_in indication.entry)) 0 5 }
{
    match indication {
        Some(bytes) if octets::same(bytes, expected) => Ok(()),
        _ => Err(Reason::Indication),
    }
}

pub(crate) fn server_indication(
    signal: bool,
    indication: Option<&[u8]>,
    connection: &Connection,
    switches: &Switches,
) -> Result<(), Reason>
    ensures { said result ≡ server_indication connection.now switches.now signal (ri_in indication.entry) }
{
    if connection.completed == 0 {
        return first(signal, indication, switches);
    }
    if connection.is_closed() {
        return Err(Reason::Closed);
    }
    if signal {
        return Err(Reason::Indication); // 'If the SCSV is present, the server MUST abort the handshake' (RFC 5746, section 3.7)
    }
    says(indication, &connection.client)
}

pub(crate) fn client_indication(
    indication: Option<&[u8]>,
    connection: &Connection,
    switches: &Switches,
) -> Result<(), Reason>
    ensures { said result ≡ client_indication connection.now switches.now (ri_in indication.entry) }
{
    if connection.completed == 0 {
        return first(false, indication, switches);
    }
    if connection.is_closed() {
        return Err(Reason::OutOfTurn);
    }
    let expected = connection.verify_data();
    says(indication, &expected)
}

// The flag that completion will write.
pub(crate) fn flag_of(signal: bool, indication: Option<&[u8]>, connection: &Connection) -> bool
    ensures { result ≡ pick (later connection.now) true (signal || present (ri_in indication.entry)) }
{
    connection.completed != 0 || signal || indication.is_some()
}
