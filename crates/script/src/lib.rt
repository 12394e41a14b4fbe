// A script of calls, run over the session table: the book's answers, by running code.
#![tactic(auto)]

mod call;
mod reply;

ghost use Rattle.std.specs.Prelude.{◌≡◌, ◌≤◌, length};
ghost use Rattle.refusal.specs.Reason.{said};
ghost use Rattle.octets.specs.Put.{put_number, put_list};
ghost use Rattle.sessions.specs.Book.{store, look_up, withdraw, held, clear};
ghost use Rattle.script.specs.Script.{replies};
ghost use Rattle.script.specs.Calls.{IsLent, meant};
ghost use Rattle.script.specs.Steps.{Steps};

use crate::call::{Call, read_call};
use crate::reply::Reply;
use refusal::Reason;
use sessions::Table;

fn stored(
    table: &mut Table,
    axle: u8,
    identifier: &[u8],
    ems: bool,
    suite: u16,
    secret: &[u8],
) -> [u8; 70]
    ensures { Steps table.old (store (record { axle = axle; identifier = identifier.now; ems = ems; suite = suite; secret = secret.now })) result table.new }
{
    let r = table.store(axle, identifier, ems, suite, secret);
    let number = r.refusal.number;
    *table = r.table;
    Reply::of(number).bytes()
}

fn looked(table: &Table, axle: u8, identifier: &[u8], lent: &[u8]) -> [u8; 70]
    requires { length lent.now ≤ 64 }
    ensures { Steps table.now (look_up axle identifier.now lent.now) result table.now }
{
    let n = lent.len();
    let mut out = [0u8; 64];
    out[..n].copy_from_slice(lent);
    let r = table.look_up(axle, identifier, &mut out[..n]);
    let reply = Reply {
        number: r.refusal.number,
        flag: r.found,
        ems: r.ems,
        count: 0,
        suite: r.suite,
    };
    let mut bytes = reply.bytes();
    bytes[6..].copy_from_slice(&out);
    bytes
}

fn withdrew(table: &mut Table, axle: u8, identifier: &[u8]) -> [u8; 70]
    ensures { Steps table.old (withdraw axle identifier.now) result table.new }
{
    let r = table.withdraw(axle, identifier);
    let number = r.refusal.number;
    *table = r.table;
    let reply = Reply {
        flag: r.withdrawn,
        ..Reply::of(number)
    };
    reply.bytes()
}

fn counted(table: &Table, axle: u8) -> [u8; 70]
    ensures { Steps table.now (held axle) result table.now }
{
    let r = table.held(axle);
    let reply = Reply {
        count: r.count,
        ..Reply::of(r.refusal.number)
    };
    reply.bytes()
}

fn cleared(table: &mut Table) -> [u8; 70]
    ensures { Steps table.old clear result table.new }
{
    let r = table.clear();
    let number = r.refusal.number;
    *table = r.table;
    Reply::of(number).bytes()
}

fn step(table: &mut Table, call: Call<'_>) -> [u8; 70]
    requires { IsLent call }
    ensures { Steps table.old (meant call.entry) result table.new }
{
    match call {
        Call::Store {
            axle,
            identifier,
            ems,
            suite,
            secret,
        } => stored(table, axle, identifier, ems, suite, secret),
        Call::LookUp {
            axle,
            identifier,
            lent,
        } => looked(table, axle, identifier, lent),
        Call::Withdraw { axle, identifier } => withdrew(table, axle, identifier),
        Call::Held { axle } => counted(table, axle),
        Call::Clear => cleared(table),
    }
}

// Runs the script from a fresh table, and writes the answers to the front of out.
pub fn replay(script: &[u8], out: &mut [u8]) -> Result<(), Reason>
    ensures number { said result ≡ put_number out.old (replies script.now) }
    ensures out { out.new ≡ put_list out.old (replies script.now) }
{
    let n = script.len() / 112;
    if out.len() < 70 * n {
        return Err(Reason::Length);
    }
    let mut table = Table::fresh();
    for k in 0..n {
        let from = 112 * k;
        let end = from + 112;
        let reply = step(&mut table, read_call(&script[from..end]));
        let to = 70 * k;
        out[to..to + 70].copy_from_slice(&reply);
    }
    Ok(())
}
