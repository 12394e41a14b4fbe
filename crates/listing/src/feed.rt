// One message: what the log and the server's decision answer to it.
ghost use Rattle.std.specs.Prelude.{◌≡◌, ◌+◌, ◌≤◌, ◌<◌, length};
ghost use Rattle.cases.specs.Digits.{decimal};
ghost use Rattle.listing.specs.Texts.{column_of};
ghost use Rattle.listing.specs.Listing.{kind_column, decision_refusal, answer_of, hello_column};
ghost use Rattle.listing.specs.Steps.{Takes, Feeds};

use crate::line::{Column, Line, line_of};
use decision::{Connection, Switches, decide_server};
use message::byte;
use message_log::{Accepted, Log, Told};
use refusal::Refusal;
use sessions::Table;

const CLIENT_HELLO: usize = 1;

const FINISHED: usize = 20;

const AXLE: u8 = 1;

// The type of a message; an empty one has none.
fn kind(message: &[u8]) -> Column
    ensures value { result ≡ kind_column message.now }
    ensures short { length (column_of result) ≤ 3 }
{
    match message {
        [kind, ..] => Column::Number(*kind),
        [] => Column::Nothing,
    }
}

// The server's decision on a ClientHello from nobody known: an empty table, a fresh connection, every switch off.
fn decide(message: &[u8]) -> Refusal
    ensures { result ≡ decision_refusal message.now }
{
    let table = Table::fresh();
    let connection = Connection::fresh();
    let switches = Switches {
        indication_required: 0,
        legacy_full: 0,
        legacy_resumption: 0,
    };
    let mut reply = [0u8; 35];
    let decision = decide_server(message, AXLE, table, connection, switches, &mut reply);
    decision.refusal
}

// A refusal's number and place; a place in a message fits in 16 bits.
fn answer(refusal: Refusal) -> Column
    requires { refusal.place < 65536 }
    ensures value { result ≡ answer_of refusal }
    ensures short { length (column_of result) ≤ 2 + length (decimal refusal.place) }
{
    Column::Answer(refusal.number, refusal.place as u16)
}

// What the decision answers to a ClientHello that the log accepted.
fn hello(number: u8, message: &[u8]) -> Column
    ensures value { result ≡ hello_column number message.now }
    ensures short { length (column_of result) ≤ 7 }
{
    if number != 0 {
        return Column::Nothing;
    }
    if byte(message, 0) != CLIENT_HELLO {
        return Column::Nothing;
    }
    answer(decide(message))
}

// What the log answers to a message: a Finished is checked under a secret of zeros, and all others are accepted, of a full handshake with
// SHA-256.
fn take(log: Log, message: &[u8]) -> Accepted
    ensures { Takes log message.now result }
{
    if byte(message, 0) == FINISHED {
        let secret = [0u8; 48];
        return log.finish(&secret, message);
    }
    let told = Told {
        resumes: 0,
        sha384: 0,
    };
    log.accept(message, told)
}

// The line of a message; the log goes on from what it answered.
pub(crate) fn feed(log: &mut Log, number: u8, message: &[u8]) -> Line
    ensures { Feeds log.old number message.now result log.new }
{
    let accepted = take(*log, message);
    let refusal = accepted.refusal;
    let decided = hello(refusal.number, message);
    *log = accepted.log;
    line_of(number, kind(message), answer(refusal), decided)
}
