// The connection record and the decisions (document 01, 'Connection record', 'Server's decision', 'Client's decision').
ghost use Rattle.std.specs.Prelude.{◌≡◌};
ghost use Rattle.seqs.specs.Flag.{yes};
ghost use Rattle.hello.specs.Fields.{read_client, read_server};
ghost use Rattle.decision.specs.Connection.{fresh_connection};
ghost use Rattle.decision.specs.Server.{ServerDecides};
ghost use Rattle.decision.specs.Client.{lent_of, client_decision};

use decision::{Connection, Decision, Lent, Switches};
use sessions::{Table, Weighed};

#[unsafe(no_mangle)]
pub extern "C" fn axle_connection_fresh() -> Connection
    ensures { result ≡ fresh_connection }
{
    Connection::fresh()
}

#[unsafe(no_mangle)]
pub extern "C" fn axle_decide_server(
    message: &[u8],
    axle: u8,
    table: Table,
    connection: Connection,
    switches: Switches,
    out: &mut [u8],
) -> Decision
    ensures { ServerDecides table axle (read_client message.now) connection switches out.old result out.new }
{
    decision::decide_server(message, axle, table, connection, switches, out)
}

#[unsafe(no_mangle)]
pub extern "C" fn axle_decide_client(
    message: &[u8],
    offered: &[u8],
    session: u8,
    identifier: &[u8],
    ems: u8,
    suite: u16,
    connection: Connection,
    switches: Switches,
) -> Decision
    ensures { result ≡ client_decision (read_server message.now) offered.now (lent_of (yes session) identifier.now (record { ems = yes ems; suite = suite })) connection switches }
{
    let lent = Lent {
        identifier,
        session: Weighed { ems, suite },
    };
    let lent = (session != 0).then_some(lent);
    decision::decide_client(message, offered, lent, connection, switches)
}
