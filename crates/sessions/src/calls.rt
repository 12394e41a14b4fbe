// The calls on the table. A refusal leaves the table and what is lent as they were.
ghost use Rattle.std.specs.Prelude.{◌≡◌, ◌<◌, IfOk};
ghost use Rattle.sessions.specs.Places.{place_of, named_place, stored_in, looked_in, withdrawn_in};
ghost use Rattle.sessions.specs.Promises.{Starts, Stores, LooksUp, Withdraws, CountsHeld, Clears, Knows};

use crate::row::{Row, Weighed};
use crate::table::Table;
use refusal::{Reason, Refusal, refuse};

// Kept: the flags and numbers of the answers are the C interface.
#[repr(C)]
#[derive(Clone, Copy)]
pub struct Stored {
    pub refusal: Refusal,
    pub table: Table,
}

// The secret found is in the lent output.
#[repr(C)]
#[derive(Clone, Copy)]
pub struct Looked {
    pub refusal: Refusal,
    pub found: u8,
    pub ems: u8,
    pub suite: u16,
}

#[repr(C)]
#[derive(Clone, Copy)]
pub struct Withdrawn {
    pub refusal: Refusal,
    pub withdrawn: u8,
    pub table: Table,
}

#[repr(C)]
#[derive(Clone, Copy)]
pub struct Held {
    pub refusal: Refusal,
    pub count: u8,
}

#[repr(C)]
#[derive(Clone, Copy)]
pub struct Cleared {
    pub refusal: Refusal,
    pub table: Table,
}

// The place of an axle's queue.
fn place_of(axle: u8) -> Result<usize, Reason>
    ensures within { IfOk result (λ own. own < 6) }
    ensures value { result ≡ place_of axle }
{
    match axle {
        1..=6 => Ok(usize::from(axle) - 1),
        _ => Err(Reason::Name),
    }
}

// The same, where the identifier is one that a session can have.
fn named_place(axle: u8, identifier: &[u8]) -> Result<usize, Reason>
    ensures within { IfOk result (λ own. own < 6) }
    ensures value { result ≡ named_place axle identifier.now }
{
    match identifier.len() {
        1..=32 => place_of(axle),
        _ => Err(Reason::Name),
    }
}

impl Looked {
    fn nothing(refusal: Refusal) -> Looked
        ensures { result ≡ record { refusal = refusal; found = 0; ems = 0; suite = 0 } }
    {
        Looked {
            refusal,
            found: 0,
            ems: 0,
            suite: 0,
        }
    }
}

impl Table {
    // An empty table.
    pub fn fresh() -> Table
        ensures { Starts result }
    {
        Table::blank()
    }

    // One session goes, if any, and the new one is written last.
    pub fn store(self, axle: u8, identifier: &[u8], ems: bool, suite: u16, secret: &[u8]) -> Stored
        ensures { Stores self (record { axle = axle; identifier = identifier.now; ems = ems; suite = suite; secret = secret.now }) result }
    {
        let mut table = self;
        let refusal = Refusal::of(table.write(axle, identifier, ems, suite, secret));
        Stored { refusal, table }
    }

    // Apart, so that `store` holds the table once.
    #[inline(never)]
    fn write(
        &mut self,
        axle: u8,
        identifier: &[u8],
        ems: bool,
        suite: u16,
        secret: &[u8],
    ) -> Result<(), Reason>
        ensures { Stores self.old (record { axle = axle; identifier = identifier.now; ems = ems; suite = suite; secret = secret.now }) (stored_in result self.new) }
    {
        let own = named_place(axle, identifier)?;
        if secret.len() != 48 {
            return Err(Reason::Length);
        }
        if let Some(goes) = self.victim(own, identifier) {
            self.queues[goes.queue].remove(goes.place);
        }
        let row = Row::of(identifier, ems, suite, secret);
        self.queues[own].push(row);
        Ok(())
    }

    // Writes the secret of the session found to the front of out, and nothing else.
    pub fn look_up(self, axle: u8, identifier: &[u8], out: &mut [u8]) -> Looked
        ensures { LooksUp self axle identifier.now out.old result out.new }
    {
        match self.hand_out(axle, identifier, out) {
            Ok(Some(session)) => Looked {
                refusal: refuse(0),
                found: 1,
                ems: session.ems,
                suite: session.suite,
            },
            Ok(None) => Looked::nothing(refuse(0)),
            Err(reason) => Looked::nothing(Refusal::from(reason)),
        }
    }

    fn hand_out(
        &self,
        axle: u8,
        identifier: &[u8],
        out: &mut [u8],
    ) -> Result<Option<Weighed>, Reason>
        ensures { LooksUp self.now axle identifier.now out.old (looked_in result) out.new }
    {
        let own = named_place(axle, identifier)?;
        let queue = self.queue(own);
        let Some(row) = queue.named(identifier) else {
            return Ok(None);
        };
        octets::put(out, &row.secret)?;
        Ok(Some(row.weighed()))
    }

    pub fn withdraw(self, axle: u8, identifier: &[u8]) -> Withdrawn
        ensures { Withdraws self axle identifier.now result }
    {
        let mut table = self;
        let (refusal, withdrawn) = match table.strike(axle, identifier) {
            Ok(found) => (refuse(0), u8::from(found)),
            Err(reason) => (Refusal::from(reason), 0),
        };
        Withdrawn {
            refusal,
            withdrawn,
            table,
        }
    }

    // Strikes the session of that axle and identifier out; was one there? Apart, so that `withdraw` holds the table once.
    #[inline(never)]
    fn strike(&mut self, axle: u8, identifier: &[u8]) -> Result<bool, Reason>
        ensures { Withdraws self.old axle identifier.now (withdrawn_in result self.new) }
    {
        let own = named_place(axle, identifier)?;
        let Some(place) = self.queues[own].find(identifier) else {
            return Ok(false);
        };
        self.queues[own].remove(place);
        Ok(true)
    }

    pub fn held(self, axle: u8) -> Held
        ensures { CountsHeld self axle result }
    {
        let own = match place_of(axle) {
            Ok(own) => own,
            Err(reason) => {
                return Held {
                    refusal: Refusal::from(reason),
                    count: 0,
                };
            }
        };
        let held = self.queue(own).held;
        let count = held.min(8);
        Held {
            refusal: refuse(0),
            count,
        }
    }

    pub fn clear(self) -> Cleared
        ensures { Clears self result }
    {
        Cleared {
            refusal: refuse(0),
            table: Table::blank(),
        }
    }

    // What is weighed of the session of that axle and identifier, if there is one. No secret is handed out.
    pub fn known(&self, axle: u8, identifier: &[u8]) -> Option<Weighed>
        ensures { Knows self.now axle identifier.now result }
    {
        let Ok(own) = named_place(axle, identifier) else {
            return None;
        };
        let queue = self.queue(own);
        let row = queue.named(identifier)?;
        Some(row.weighed())
    }
}
