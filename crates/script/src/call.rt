// A call in 112 bytes of a script.
ghost use Rattle.std.specs.Prelude.{◌≡◌, ◌≤◌, length};
ghost use Rattle.script.specs.Script.{identifier_in, suite_in, lent_in, call_of};
ghost use Rattle.script.specs.Calls.{IsLent, meant};

use octets::number;
use std::cmp::min;

#[derive(Clone, Copy)]
pub(crate) enum Call<'a> {
    Store {
        axle: u8,
        identifier: &'a [u8],
        ems: bool,
        suite: u16,
        secret: &'a [u8],
    },
    LookUp {
        axle: u8,
        identifier: &'a [u8],
        lent: &'a [u8],
    },
    Withdraw {
        axle: u8,
        identifier: &'a [u8],
    },
    Held {
        axle: u8,
    },
    Clear,
}

pub(crate) fn read_call(entry: &[u8]) -> Call<'_>
    requires { length entry.now ≡ 112 }
    ensures call { meant result ≡ call_of entry.now }
    ensures lent { IsLent result }
{
    let axle = entry[1];
    let identifier = identifier_in(entry);
    let lent = lent_in(entry);
    match entry[0] {
        0 => Call::Store {
            axle,
            identifier,
            ems: entry[3] != 0,
            suite: suite_in(entry),
            secret: lent,
        },
        1 => Call::LookUp {
            axle,
            identifier,
            lent,
        },
        2 => Call::Withdraw { axle, identifier },
        3 => Call::Held { axle },
        _ => Call::Clear,
    }
}

fn identifier_in(entry: &[u8]) -> &[u8]
    requires { length entry.now ≡ 112 }
    ensures { result.now ≡ identifier_in entry.now }
{
    let n = min(entry[2] as usize, 40);
    let end = 8 + n;
    &entry[8..end]
}

fn suite_in(entry: &[u8]) -> u16
    requires { length entry.now ≡ 112 }
    ensures { result ≡ suite_in entry.now }
{
    number(entry[5], entry[6])
}

fn lent_in(entry: &[u8]) -> &[u8]
    requires { length entry.now ≡ 112 }
    ensures value { result.now ≡ lent_in entry.now }
    ensures short { length result.now ≤ 64 }
{
    let n = min(entry[4] as usize, 64);
    let end = 48 + n;
    &entry[48..end]
}
