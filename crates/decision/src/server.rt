// The server's decision.
ghost use Rattle.std.specs.Prelude.{◌≡◌};
ghost use Rattle.hello.specs.Fields.{read_client};
ghost use Rattle.decision.specs.Server.{ServerDecides};
ghost use Rattle.decision.specs.Steps.{ClientWas, Plain, asked_in, original_in, SessionIs, decision_in};

use crate::connection::{Connection, Decision, Switches};
use crate::indication::{flag_of, indication_of, server_indication};
use crate::outcome::{answered, decided, server_outcome};
use crate::reply::build_reply;
use hello::ClientHello;
use refusal::Reason;
use sessions::{Table, Weighed};

// What the decision asks of a ClientHello.
#[derive(Clone, Copy)]
pub(crate) struct Asked<'a> {
    pub signal: bool,
    pub indication: Option<&'a [u8]>,
    pub ems: bool,
}

// On a ClientHello of an axle, whose session is looked up in the table. The reply's extensions go to the front of `out`.
pub fn decide_server(
    message: &[u8],
    axle: u8,
    table: Table,
    connection: Connection,
    switches: Switches,
    out: &mut [u8],
) -> Decision
    ensures { ServerDecides table axle (read_client message.now) connection switches out.old result out.new }
{
    answered(serve(message, axle, &table, &connection, &switches, out))
}

fn serve(
    message: &[u8],
    axle: u8,
    table: &Table,
    connection: &Connection,
    switches: &Switches,
    out: &mut [u8],
) -> Result<Decision, Reason>
    ensures { ServerDecides table.now axle (read_client message.now) connection.now switches.now out.old (decision_in result) out.new }
{
    if axle < 1 || 6 < axle {
        return Err(Reason::Name);
    }
    let read = hello::read_client_hello(message);
    let Ok(hello) = read else {
        return Err(read.unwrap_err());
    };
    let session = session_of(message, &hello, axle, table);
    let asked = Asked {
        signal: hello.signal != 0,
        indication: indication_of(message, hello.extensions),
        ems: hello.extensions.ems != 0,
    };
    judge(asked, session, connection, switches, out)
}

// An identifier that is not empty is looked up. A session whose suite is not listed counts as none.
fn session_of(message: &[u8], hello: &ClientHello, axle: u8, table: &Table) -> Option<Weighed>
    requires { ClientWas message.now hello.now }
    ensures { SessionIs table.now axle (read_client message.now) result }
{
    let identifier = hello.identifier;
    if identifier.length == 0 {
        return None;
    }
    let end = identifier.at + identifier.length;
    let session = table.known(axle, &message[identifier.at..end])?;
    let suites = hello.suites;
    let to = suites.at + suites.length;
    hello::lists_suite(&message[suites.at..to], session.suite).then_some(session)
}

// On what a ClientHello asks, and what is known of its session.
fn judge(
    asked: Asked<'_>,
    session: Option<Weighed>,
    connection: &Connection,
    switches: &Switches,
    out: &mut [u8],
) -> Result<Decision, Reason>
    ensures { Plain connection.now switches.now (original_in session) out.old (asked_in asked.entry) (decision_in result) out.new }
{
    server_indication(asked.signal, asked.indication, connection, switches)?;
    let outcome = server_outcome(session, asked.ems, switches)?;
    let flag = flag_of(asked.signal, asked.indication, connection);
    let reply = build_reply(connection, flag, outcome.ems);
    let bytes = reply.as_slice();
    octets::put(out, bytes)?;
    Ok(decided(outcome, flag, bytes.len()))
}
