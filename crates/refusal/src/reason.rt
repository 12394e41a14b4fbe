// Why a call refuses: document 01's numbers by their meaning, for use inside; the C face answers their numbers.
ghost use Rattle.std.specs.Prelude.{◌≡◌};
ghost use Rattle.refusal.specs.Reason.{number_for, place_for, refusal_for, refusal_in};

use crate::{Refusal, refuse, refuse_at};

#[derive(Clone, Copy, PartialEq, Eq)]
pub enum Reason {
    // a malformed message, and where it broke
    Malformed(usize),
    // an extension type twice in a hello, and where it stands again
    Repeated(usize),
    Version,
    // a ServerHello's extension that was never offered
    NotOffered,
    // the renegotiation indication is wrong or missing
    Indication,
    // the rule of the master secret forbids it
    NoSecret,
    OutOfTurn,
    // the value of a Finished differs
    Differs,
    // renegotiation is closed, on the server's side
    Closed,
    // a lent length outside its bounds
    Length,
    // an axle that is not 1 to 6, or an identifier that is not 1 to 32 bytes
    Name,
    // another suite than the session's, on the client's side
    Suite,
}

impl Reason {
    // Its number in the table.
    pub fn number(self) -> u8
        ensures { result ≡ number_for self }
    {
        match self {
            Reason::Malformed(_) => 1,
            Reason::Repeated(_) => 2,
            Reason::Version => 3,
            Reason::NotOffered => 4,
            Reason::Indication => 5,
            Reason::NoSecret => 6,
            Reason::OutOfTurn => 7,
            Reason::Differs => 8,
            Reason::Closed => 9,
            Reason::Length => 10,
            Reason::Name => 11,
            Reason::Suite => 12,
        }
    }

    // The place in the message that it speaks of, 0 where it speaks of none.
    pub fn place(self) -> usize
        ensures { result ≡ place_for self }
    {
        match self {
            Reason::Malformed(place) | Reason::Repeated(place) => place,
            _ => 0,
        }
    }
}

impl From<Reason> for Refusal {
    ghost from_gives = { λ reason refusal. refusal ≡ refusal_for reason };

    fn from(reason: Reason) -> Refusal {
        refuse_at(reason.number(), reason.place())
    }
}

impl Refusal {
    // What a call answers: done, or its row of the table.
    pub fn of(answer: Result<(), Reason>) -> Refusal
        ensures { result ≡ refusal_in answer }
    {
        match answer {
            Ok(()) => refuse(0),
            Err(reason) => Refusal::from(reason),
        }
    }
}
