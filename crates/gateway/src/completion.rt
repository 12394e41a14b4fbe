// Completion: both Finished are taken, and the connection record is written.
ghost use Rattle.std.specs.Prelude.{◌≡◌};
ghost use Rattle.gateway.specs.Completion.{completed_of, left_by, Completes};

use decision::{Connection, Decision};
use message_log::{Finished, Log};
use refusal::{Reason, Refusal, refuse};

// The record that is written, by what the log says of its Finished, and the decision.
fn completed(finished: Finished, decision: Decision) -> Result<Connection, Reason>
    ensures { (was : Connection) → left_by was result ≡ completed_of was finished decision }
{
    if finished.complete == 0 || decision.refusal.number != 0 {
        return Err(Reason::OutOfTurn);
    }
    let resumed = finished.resumed != 0;
    let resumes = decision.resumes != 0;
    if resumed != resumes {
        return Err(Reason::OutOfTurn);
    }
    let client = finished.client;
    let server = finished.server;
    Ok(Connection {
        completed: 1,
        indication: u8::from(decision.indication != 0),
        barred: u8::from(decision.bar != 0),
        client,
        server,
    })
}

// The connection record is lent: it is written, or stays as it was.
#[unsafe(no_mangle)]
pub extern "C" fn axle_complete(
    connection: &mut Connection,
    log: Log,
    decision: Decision,
) -> Refusal
    ensures { Completes connection.old log decision result connection.new }
{
    match completed(log.finished(), decision) {
        Ok(written) => {
            *connection = written;
            refuse(0)
        }
        Err(reason) => Refusal::from(reason),
    }
}
